//! For how many events a phase takes memory as it begins. It is no matter of contracts: a list that has too little grows.
#![tactic(auto)]

use script_definitions::line::ScriptLine;

/// The bearer of a line, where it isn't the end of a phase.
fn bearer_of(line: &ScriptLine) -> Option<u8> {
    match line {
        ScriptLine::Sync => None,
        ScriptLine::Arm(_) => None,
        ScriptLine::Net { bearer, .. } => Some(*bearer),
        ScriptLine::Bcn { bearer, .. } => Some(*bearer),
        ScriptLine::Peer { bearer, .. } => Some(*bearer),
        ScriptLine::Talk { bearer, .. } => Some(*bearer),
        ScriptLine::Beacon { bearer, .. } => Some(*bearer),
        ScriptLine::Send { bearer, .. } => Some(*bearer),
        ScriptLine::Raw { bearer, .. } => Some(*bearer),
        ScriptLine::Tick { bearer, .. } => Some(*bearer),
        ScriptLine::Seek { bearer } => Some(*bearer),
        ScriptLine::Poll { bearer } => Some(*bearer),
        ScriptLine::List { bearer, .. } => Some(*bearer),
    }
}

/// How many of these lines are of this bearer, up to the end of their phase.
pub(crate) fn lines_of(lines: &[ScriptLine], bearer: u8) -> usize {
    let mut count: usize = 0;
    for line in lines {
        match bearer_of(line) {
            None => return count,
            Some(of) => {
                if of == bearer {
                    count = count.saturating_add(1);
                }
            }
        }
    }
    count
}
