//! The canonical text of a scene.

use fixed_motion::{Disk, Rules, Scene};
use itoa::Buffer;
use std::alloc::{AllocError, Global};
use std::marker::Model;

/// A text, seen as its bytes.
#[derive(Drop)]
pub struct Text {
    bytes: Vec<u8>,
}

impl Model for Text {
    ghost use Rattle.std.specs.Prelude.{List, ℕ};

    ghost Value = { List ℕ };

    ghost view = { λ t. t.bytes.items };
}

ghost use Rattle.std.specs.Prelude.{◌≡◌, ◌++◌, pos, codes, IfOk, OnOk};
ghost use Rattle.std.specs.Fmt.{signed_decimal};
ghost use Rattle.std.specs.List.{flat_map};
ghost use Rattle.fixed_motion.specs.Rules.{IsChecked};
ghost use Rattle.fixed_motion.specs.Scene.{IsEvery};
ghost use Rattle.text_lines.specs.Lines.{ended};
ghost use Rattle.scene_maker.specs.Canonical.{canonical_text, rules_text, every_text, row_line, size_text, key_line};

impl Text {
    /// Its bytes.
    pub fn as_bytes(&self) -> &[u8]
        ensures { result.now ≡ self.now }
    {
        self.bytes.as_slice()
    }
}

/// The canonical text of a scene: TOML that says exactly this scene, a line for each number and each
/// disk.
pub fn scene_text(alloc: Global, scene: &Scene) -> Result<Text, AllocError>
    ensures { IfOk result (λ text. text ≡ canonical_text scene.now) }
{
    let mut bytes = Vec::new(alloc);
    push_rules(&mut bytes, &scene.rules)?;
    push_every(&mut bytes, scene.every)?;
    push_disks(&mut bytes, &scene.rules, &scene.disks)?;
    Ok(Text { bytes })
}

fn push_rules(bytes: &mut Vec<u8>, rules: &Rules) -> Result<(), AllocError>
    requires { IsChecked rules.now }
    ensures { OnOk result (bytes.new.items ≡ bytes.old.items ++ rules_text rules.now) }
{
    push_key_line(bytes, "width", rules.width)?;
    push_key_line(bytes, "height", rules.height)?;
    push_key_line(bytes, "diameter", rules.diameter)?;
    push_limits(bytes, rules)
}

// The lines of the last three rules, in a function of their own to keep both chains of calls short.
fn push_limits(bytes: &mut Vec<u8>, rules: &Rules) -> Result<(), AllocError>
    requires { IsChecked rules.now }
    ensures { OnOk result (bytes.new.items ≡ bytes.old.items
        ++ (key_line (codes "speed_limit") rules.now.speed_limit
        ++ (key_line (codes "round_limit") (pos rules.now.round_limit)
        ++ key_line (codes "end") (pos rules.now.end)))) }
{
    push_key_line(bytes, "speed_limit", rules.speed_limit)?;
    push_key_line(bytes, "round_limit", rules.round_limit as i64)?;
    push_key_line(bytes, "end", rules.end as i64)
}

fn push_every(bytes: &mut Vec<u8>, every: Option<u64>) -> Result<(), AllocError>
    requires { IsEvery every }
    ensures { OnOk result (bytes.new.items ≡ bytes.old.items ++ every_text every) }
{
    match every {
        Some(ticks) => push_key_line(bytes, "every", ticks as i64),
        None => Ok(()),
    }
}

fn push_disks(bytes: &mut Vec<u8>, rules: &Rules, disks: &[Disk]) -> Result<(), AllocError>
    ensures { OnOk result (bytes.new.items ≡ bytes.old.items
        ++ (ended (codes "disks = [")
        ++ (flat_map (row_line rules.now) disks.now ++ ended (codes "]")))) }
{
    push_text(bytes, "disks = [\n")?;
    push_rows(bytes, rules, disks)?;
    push_text(bytes, "]\n")
}

fn push_rows(bytes: &mut Vec<u8>, rules: &Rules, disks: &[Disk]) -> Result<(), AllocError>
    ensures { OnOk result (bytes.new.items
        ≡ bytes.old.items ++ flat_map (row_line rules.now) disks.now) }
{
    for disk in disks {
        push_row(bytes, rules, disk)?;
    }
    Ok(())
}

fn push_row(bytes: &mut Vec<u8>, rules: &Rules, disk: &Disk) -> Result<(), AllocError>
    ensures { OnOk result (bytes.new.items ≡ bytes.old.items ++ row_line rules.now disk.now) }
{
    push_pair(bytes, "  [", disk.x, disk.y)?;
    push_pair(bytes, ", ", disk.vx, disk.vy)?;
    push_size(bytes, rules, disk)?;
    push_text(bytes, "],\n")
}

// Two numbers of a row after some text, in a function of their own to keep the row's chain of calls short.
fn push_pair(bytes: &mut Vec<u8>, before: &str, first: i64, second: i64) -> Result<(), AllocError>
    ensures { OnOk result (bytes.new.items ≡ bytes.old.items
        ++ (before.now ++ (signed_decimal first ++ (codes ", " ++ signed_decimal second)))) }
{
    push_text(bytes, before)?;
    push_number(bytes, first)?;
    push_text(bytes, ", ")?;
    push_number(bytes, second)
}

fn push_size(bytes: &mut Vec<u8>, rules: &Rules, disk: &Disk) -> Result<(), AllocError>
    ensures { OnOk result (bytes.new.items ≡ bytes.old.items ++ size_text rules.now disk.now) }
{
    if disk.size == rules.diameter {
        return Ok(());
    }
    push_text(bytes, ", ")?;
    push_number(bytes, disk.size)
}

fn push_key_line(bytes: &mut Vec<u8>, key: &str, value: i64) -> Result<(), AllocError>
    ensures { OnOk result (bytes.new.items ≡ bytes.old.items ++ key_line key.now value) }
{
    push_text(bytes, key)?;
    push_text(bytes, " = ")?;
    push_number(bytes, value)?;
    push_text(bytes, "\n")
}

fn push_number(bytes: &mut Vec<u8>, n: i64) -> Result<(), AllocError>
    ensures { OnOk result (bytes.new.items ≡ bytes.old.items ++ signed_decimal n) }
{
    let mut buffer = Buffer::new();
    push_text(bytes, buffer.format(n))
}

fn push_text(bytes: &mut Vec<u8>, text: &str) -> Result<(), AllocError>
    ensures { OnOk result (bytes.new.items ≡ bytes.old.items ++ text.now) }
{
    bytes.extend_from_slice(text.as_bytes())
}
