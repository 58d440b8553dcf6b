// The captures of uses under a cutting rule: how many there are, each of them, and where they are written.
ghost use Rattle.std.specs.Prelude.{◌≡◌, ◌-◌, ◌≤◌, map, filter_map, length, Ok, Err, MatchResult};
ghost use Rattle.std.specs.Option.{option_map};
ghost use Rattle.scale.specs.Highest.{highest};
ghost use Rattle.place.specs.Places.{spot, lies_under};
ghost use Rattle.cover.specs.Cover.{tells};
ghost use Rattle.cover.specs.Covering.{Covers};
ghost use Rattle.cover.specs.Tables.{answer, Written};
ghost use Rattle.cover.specs.Views.{used, captured, captures_of, place_opened, opened_of};

use crate::cutting::Cutting;
use crate::full::Full;
use crate::roots::opened;
use crate::telling::Telling;
use place::places::Place;
use place::uses::{Capture, Use};
use scale::highest::highest_by;
use scale::sited::Sited;

// Uses that are to be covered, under a cutting rule.
#[derive(Drop)]
pub struct Covering<'r, 'u, C: Cutting> {
    pub rule: &'r C,
    pub uses: &'u [Use<C::Value>],
}

impl<'r, 'u, C: Cutting> Covering<'r, 'u, C> {
    // Whatever the uses are, their captures cover them.
    pub fn new(rule: &'r C, uses: &'u [Use<C::Value>]) -> Covering<'r, 'u, C>
        ensures rule { result.rule ≡ rule.entry }
        ensures uses { result.uses ≡ uses.entry }
        ensures covers { Covers lies_under (C.cuts rule.now) C.Value.low C.Value.leq (map used uses.now) (captures_of (C.cuts rule.now) C.Value.low C.Value.leq uses.now) }
    {
        Covering { rule, uses }
    }

    // The place of the capture that the i-th use opens, if it opens one.
    fn opened_place(&self, i: usize) -> Option<Place>
        ensures { option_map spot result ≡ place_opened self.now.uses.now i }
    {
        let opener = self.uses.get(i)?;
        opened(self.uses, &self.uses[0..i], opener.place)
    }

    // How many captures there are.
    fn count(&self) -> usize
        ensures { result ≡ length (captures_of (C.cuts self.now.rule.now) C.Value.low C.Value.leq self.now.uses.now) }
    {
        (0..self.uses.len())
            .filter(|i| self.opened_place(*i).is_some())
            .count()
    }

    // Refuses where the captures outnumber the rows of a room.
    pub fn check_room(&self, room: usize) -> Result<(), Full>
        ensures { MatchResult result (λ _. length (captures_of (C.cuts self.now.rule.now) C.Value.low C.Value.leq self.now.uses.now) ≤ room) (λ e. Err e ≡ answer (length (captures_of (C.cuts self.now.rule.now) C.Value.low C.Value.leq self.now.uses.now)) room) }
    {
        // There are never more captures than uses, so that most calls need not count them.
        if self.uses.len() <= room {
            return Ok(());
        }
        let needed = self.count();
        if needed <= room {
            Ok(())
        } else {
            Err(Full { needed })
        }
    }

    // The mode at a place, with the site that sets it.
    fn mode_at(&self, place: Place) -> Sited<C::Value>
        ensures { result ≡ highest C.Value.low C.Value.leq (filter_map (tells lies_under (C.cuts self.now.rule.now) (spot place)) (map used self.now.uses.now)) }
    {
        let telling = Telling {
            rule: self.rule,
            place,
        };
        highest_by(&telling, self.uses)
    }

    // The capture that a use opens at a place.
    fn capture(&self, place: Place, opener: &Use<C::Value>) -> Capture<C::Value>
        ensures place { result.place ≡ place }
        ensures mode { result.mode ≡ highest C.Value.low C.Value.leq (filter_map (tells lies_under (C.cuts self.now.rule.now) (spot place)) (map used self.now.uses.now)) }
        ensures first { result.first ≡ opener.now.mode.site }
    {
        Capture {
            place,
            mode: self.mode_at(place),
            first: opener.mode.site,
        }
    }

    // The capture that the i-th use opens, if it opens one.
    pub fn opened_capture(&self, i: usize) -> Option<Capture<C::Value>>
        ensures { option_map captured result ≡ opened_of (C.cuts self.now.rule.now) C.Value.low C.Value.leq self.now.uses.now i }
    {
        let opener = self.uses.get(i)?;
        let place = self.opened_place(i)?;
        Some(self.capture(place, opener))
    }

    // Writes the captures behind the filled rows of a table that has room for them: how many there are.
    pub fn lay_out(&self, table: &mut [Capture<C::Value>], filled: usize) -> usize
        requires { length (captures_of (C.cuts self.now.rule.now) C.Value.low C.Value.leq self.now.uses.now) ≤ length table.old - filled }
        ensures answers { Ok result ≡ answer (length (captures_of (C.cuts self.now.rule.now) C.Value.low C.Value.leq self.now.uses.now)) (length table.old - filled) }
        ensures written { Written (captures_of (C.cuts self.now.rule.now) C.Value.low C.Value.leq self.now.uses.now) filled table.old table.new }
    {
        let mut n = 0;
        for i in 0..self.uses.len() {
            if let Some(capture) = self.opened_capture(i) {
                table[filled + n] = capture;
                n += 1;
            }
        }
        n
    }
}
