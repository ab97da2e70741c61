//! Texts of scenes, and the scenes that they say.

use fixed_motion::Scene;
use report_ports::MemorySource;
use scene_reader::read_scene;
use std::alloc::{AllocError, Global};

/// The sizes of a small box.
pub const USUAL: &str = "width = 40\nheight = 20\ndiameter = 4\n";

/// The sizes of a box of 20 columns and one row of cells.
pub const LONG: &str = "width = 400\nheight = 20\ndiameter = 4\n";

/// A box of 20 columns, with the disks of `ROLLED_BACK`.
pub const SLOW_CROSSING: &str = "width = 400\n\
    height = 20\n\
    diameter = 4\n\
    speed_limit = 8\n\
    round_limit = 8\n\
    end = 20\n\
    disks = [[96, 10, 1, 0], [190, 10, 0, 8]]\n";

/// One disk, which goes up and down in the small box: it hits a side at every other tick.
pub const BOUNCING: &str = "[10, 10, 0, 8]";

/// Four disks of a long box, each of which passes its velocity on to the next.
pub const FOUR_IN_A_ROW: &str = "[80, 10, 8, 0], [120, 10, 0, 0], [240, 10, 0, 0], [340, 10, 0, 0]";

/// For four regions of a long box: disk 1 goes up and down in region 1, at the border of region 2, and disk 0 comes
/// from region 0.
pub const ROLLED_BACK: &str = "[96, 10, 1, 0], [190, 10, 0, 8]";

/// For four regions of a long box: disks 1 and 2 hit each other in region 0, and disk 0 comes towards them from region
/// 1.
pub const MISLED: &str = "[120, 6, -8, 1], [84, 9, 8, 1], [90, 9, 0, 1]";

/// The text of a scene with the speed limit 8.
pub fn scene(
    alloc: Global,
    sizes: &str,
    rounds: u32,
    end: u32,
    rows: &str,
) -> Result<String, AllocError> {
    format!(in alloc;
        "{sizes}speed_limit = 8\nround_limit = {rounds}\nend = {end}\ndisks = [{rows}]\n"
    )
}

/// The scene of a text; none if it is refused.
pub fn scene_of(alloc: Global, text: &str) -> Result<Option<Scene>, AllocError> {
    let mut source = MemorySource::new(alloc, text.as_bytes(), &[])?;
    match read_scene(alloc, &mut source) {
        Ok(scene) => Ok(Some(scene)),
        Err(_) => Ok(None),
    }
}
