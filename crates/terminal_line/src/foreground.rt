//! Whether the process may write to the terminal.

ghost use Rattle.std.specs.Prelude.{◌≡◌, true, IfErr};

use std::rt::Files;
use std::{fs, io};

// The file in which the system describes the process in one line (proc(5)).
const STAT: &str = "/proc/self/stat";

/// The terminal to which errors go. The thread that shows a line there asks it.
pub trait Terminal {
    /// Whether the process may write to the terminal.
    fn is_ours(&self) -> bool;
}

/// Whether the process belongs to the foreground group of its terminal. If the system doesn't tell, the answer is yes.
pub fn is_in_foreground<R: AllocGlobal + Files>(rt: &R) -> bool {
    may_write(&fs::read_to_string(rt, STAT))
}

// Whether a process that is described so may write to its terminal, also if it couldn't be read how it is.
fn may_write(stat: &io::Result<String>) -> bool
    ensures { IfErr stat.now (λ _. result ≡ true) }
{
    match stat {
        Ok(stat) => says_foreground(stat).unwrap_or(true),
        Err(_) => true,
    }
}

// After the program's name, which is in parentheses, come its state, its parent, its group, its session, its terminal,
// and the terminal's foreground group.
fn says_foreground(stat: &str) -> Option<bool> {
    let (_, fields) = stat.rsplit_once(") ")?;
    let mut fields = fields.split(' ');
    let group = fields.nth(2)?;
    let foreground = fields.nth(2)?;
    Some(group == foreground)
}
