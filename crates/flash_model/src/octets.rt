// Writes to octets under a mask: a whole call is one under mask ff.
ghost use Rattle.std.specs.Prelude.{◌≡◌, ◌+◌, ◌≤◌, length};
ghost use Rattle.flash_model.specs.Octets.{IsMasked, IsMixed, blanked, programmed};

/// Each bit whose bit in `mask` is 1 is that of `new`, the others are those of `old`.
fn masked(old: u8, new: u8, mask: u8) -> u8
    ensures { IsMasked mask old new result }
{
    (old & !mask) | (new & mask)
}

/// Programs octets from offset `at` on, under a mask.
pub fn program_octets(octets: &mut [u8], at: usize, bytes: &[u8], mask: u8)
    requires { at + length bytes.now ≤ length octets.old }
    ensures { IsMixed mask octets.old (programmed at bytes.now octets.old) octets.new }
{
    for i in 0..bytes.len() {
        let old = octets[at + i];
        octets[at + i] = masked(old, old & bytes[i], mask);
    }
}

/// Sets `len` octets from offset `at` on to ff, under a mask.
pub fn blank_octets(octets: &mut [u8], at: usize, len: usize, mask: u8)
    requires { at + len ≤ length octets.old }
    ensures { IsMixed mask octets.old (blanked at len octets.old) octets.new }
{
    for i in 0..len {
        octets[at + i] = masked(octets[at + i], 0xff, mask);
    }
}
