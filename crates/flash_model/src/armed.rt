// Which program or erase call of a flash in memory is torn.
ghost use Rattle.std.specs.Prelude.{◌≡◌};
ghost use Rattle.flash_model.specs.Course.{course_of, nearer_arm, is_failing, call_of};

use crate::past::{CHANGED, FAILED};

/// An arm that was set, with the calls that still come before the torn one.
#[derive(Clone, Copy)]
pub struct Armed {
    pub calls: u32,
    pub mask: u8,
    /// What `changes` was when it was set.
    pub changes: u32,
    pub left: u32,
}

/// What becomes of a program or erase call.
#[derive(Clone, Copy)]
pub enum Course {
    Whole,
    /// Under this mask, and then it fails.
    Torn(u8),
    /// It fails, since an earlier one was torn.
    Dead,
}

impl Course {
    /// Whether the call answers that it failed.
    pub fn fails(self) -> bool
        ensures { result ≡ is_failing self }
    {
        !matches!(self, Course::Whole)
    }

    /// What the past notes of the call.
    pub fn noted_as(self) -> u64
        ensures { result ≡ call_of self }
    {
        match self {
            Course::Whole => CHANGED,
            Course::Torn(_) | Course::Dead => FAILED,
        }
    }
}

/// What becomes of the next call.
pub fn next_course(failed: bool, arm: Option<Armed>) -> Course
    ensures { result ≡ course_of failed arm }
{
    if failed {
        return Course::Dead;
    }
    match arm {
        Some(arm) if arm.left == 0 => Course::Torn(arm.mask),
        _ => Course::Whole,
    }
}

/// The arm after one more call.
pub fn nearer(arm: Option<Armed>) -> Option<Armed>
    ensures { result ≡ nearer_arm arm }
{
    let arm = arm?;
    Some(Armed {
        left: arm.left.saturating_sub(1),
        ..arm
    })
}
