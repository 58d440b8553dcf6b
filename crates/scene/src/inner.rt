// What the walk is told from outside: the captures of the closures inside this one, and which closure types are Copy.
ghost use Rattle.std.specs.Prelude.{◌≡◌, ◌<◌, length, slice_index_or};
ghost use Rattle.scene.specs.Inner.{Told, held, nothing_held};

use place::uses::Capture;
use scale::modes::Mode;

// Told of a closure of the body, by its number. A closure that is not analysed has no captures and no
// answer on Copy. Only closures that the body has are asked for: a closure type with another number counts
// as Copy, and the walk answers that itself.
pub trait Inner {
    ghost tells: { Self → Told };

    // How many captures a closure has.
    fn count(&self, closure: u8) -> usize
        ensures { result ≡ length ((tells self.now).captured closure) };

    // A capture of a closure, in their order from 0.
    fn capture(&self, closure: u8, at: usize) -> Capture<Mode>
        requires { at < length ((tells self.now).captured closure) }
        ensures { held result ≡ slice_index_or ((tells self.now).captured closure) at nothing_held };

    // Whether a closure's type is Copy; none where it is not analysed.
    fn copies(&self, closure: u8) -> Option<bool>
        ensures { result ≡ (tells self.now).copied closure };
}
