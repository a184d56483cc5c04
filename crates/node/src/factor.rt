// A right factor in one word: a node's position, or all ones for none.
ghost use Rattle.std.specs.Prelude.{◌≡◌};
ghost use Rattle.node.specs.Reading.{long_right};

pub const NO_FACTOR: u32 = 0xFFFF_FFFF;

#[tactic(auto, unfolding(crate::specs::Reading::long_right))]
pub fn long_right(right: u32) -> Option<u32>
    ensures { result ≡ long_right right }
{
    if right == NO_FACTOR {
        None
    } else {
        Some(right)
    }
}
