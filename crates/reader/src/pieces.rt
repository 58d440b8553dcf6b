// A file falls into records: a tag byte, a length of two bytes, high byte first, and that many bytes of payload.
ghost use Rattle.std.specs.Prelude.{◌≡◌, drop};
ghost use Rattle.reader.specs.Pieces.{parse, view, number_at, byte_at, payload_at};

// One record: its tag, its payload, and what follows it in the file.
#[derive(Clone, Copy)]
pub struct Piece<'a> {
    pub tag: u8,
    pub payload: &'a [u8],
    pub rest: &'a [u8],
}

// The first record of a file; none where it runs past the end.
pub fn first_record<'a>(file: &'a [u8]) -> Option<Piece<'a>>
    ensures { view result ≡ parse file.now }
{
    let [tag, hi, lo, rest @ ..] = file else {
        return None;
    };
    let len = *hi as usize * 256 + *lo as usize;
    let (payload, rest) = rest.split_at_checked(len)?;
    Some(Piece {
        tag: *tag,
        payload,
        rest,
    })
}

// The byte at a place, 0 past the end.
pub fn byte_at(bytes: &[u8], at: usize) -> u8
    ensures { result ≡ byte_at bytes.now at }
{
    bytes.get(at).copied().unwrap_or(0)
}

// The number of two bytes at a place, high byte first.
pub fn number_at(bytes: &[u8], at: usize) -> u16
    ensures { result ≡ number_at bytes.now at }
{
    byte_at(bytes, at) as u16 * 256 + byte_at(bytes, at.saturating_add(1)) as u16
}

// What lies behind the first bytes; nothing where there are no more.
pub fn behind<'a>(bytes: &'a [u8], count: usize) -> &'a [u8]
    ensures { result.now ≡ drop count bytes.now }
{
    bytes.get(count..).unwrap_or(&[])
}

// The payload of the record at an offset of a file; none where it runs past the end.
pub fn payload_at<'a>(file: &'a [u8], offset: usize) -> &'a [u8]
    ensures { result.now ≡ payload_at file.now offset }
{
    first_record(behind(file, offset)).map_or(&[], |piece| piece.payload)
}
