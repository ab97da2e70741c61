//! The lines of sums, each made of what it tells.

ghost use Rattle.std.specs.Prelude.{◌≡◌, ◌+◌, ◌≤◌, ◌++◌, ◌∷◌, decimal, length};
ghost use Rattle.collision_sums.specs.SumLines as the;

use crate::Sums;
use text_lines::TextLine;

/// The line of the disks in the part, and of the collisions of two disks there.
pub fn inside_line(tick: u64, disks: u64, squares: u64, sums: &Sums) -> TextLine
    ensures { result ≡ the.inside_line tick disks squares sums.now }
{
    let mut line = TextLine::new();
    line.push_text("inside");
    line.push_number_field(tick);
    line.push_number_field(disks);
    line.push_number_field(squares);
    push_wide_field(&mut line, sums.pairs);
    push_wide_field(&mut line, sums.virial);
    line.push_newline();
    line
}

/// The line of what the sides took.
pub fn sides_line(tick: u64, sums: &Sums) -> TextLine
    ensures { result ≡ the.sides_line tick sums.now }
{
    let mut line = TextLine::new();
    line.push_text("sides");
    line.push_number_field(tick);
    push_wide_field(&mut line, sums.walls);
    push_wide_field(&mut line, sums.left);
    push_wide_field(&mut line, sums.right);
    push_wide_field(&mut line, sums.bottom);
    push_wide_field(&mut line, sums.top);
    line.push_newline();
    line
}

// Appends a space and the digits of a number, at most 40 bytes.
fn push_wide_field(line: &mut TextLine, n: u128)
    requires { length line.old + 40 ≤ 256 }
    ensures after { line.new ≡ line.old ++ (32 ∷ decimal n) }
    ensures len { length line.new ≤ length line.old + 40 }
{
    line.push_text(" ");
    line.push_wide(n);
}
