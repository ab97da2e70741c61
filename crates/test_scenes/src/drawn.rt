//! Texts of scenes that are drawn. Some of the scenes are refused, since disks may overlap.

ghost use Rattle.std.specs.Prelude.{◌<◌};

use crate::numbers::DrawnNumbers;
use crate::texts::scene;
use std::alloc::{AllocError, Global};

/// The text of a scene of up to five disks of various sizes in a box of up to eight columns and five rows.
pub fn generated(alloc: Global, numbers: &mut DrawnNumbers) -> Result<String, AllocError> {
    let width = numbers.next(20, 60);
    let height = numbers.next(8, 40);
    let speed = numbers.next(2, 3);
    let rounds = numbers.next(1, 3);
    let end = numbers.next(0, 40);
    let rows = generated_rows(alloc, numbers, width, height)?;
    format!(in alloc;
        "width = {width}\nheight = {height}\ndiameter = 4\nspeed_limit = {speed}\nround_limit = {rounds}\nend = {end}\ndisks = [{rows}]\n"
    )
}

fn generated_rows(
    alloc: Global,
    numbers: &mut DrawnNumbers,
    width: i64,
    height: i64,
) -> Result<String, AllocError> {
    let mut rows = String::new(alloc);
    for _ in 0..5 {
        let row = generated_row(alloc, numbers, width, height)?;
        if numbers.next(0, 3) > 0 {
            rows.push_str(row.as_str())?;
        }
    }
    Ok(rows)
}

fn generated_row(
    alloc: Global,
    numbers: &mut DrawnNumbers,
    width: i64,
    height: i64,
) -> Result<String, AllocError> {
    let (x, y) = (across(numbers, width), across(numbers, height));
    let (vx, vy) = (numbers.next(-2, 5), numbers.next(-2, 5));
    let size = numbers.next(1, 2).wrapping_mul(2);
    format!(in alloc; "[{x}, {y}, {vx}, {vy}, {size}],")
}

// A coordinate at which a disk of the greatest size is inside.
fn across(numbers: &mut DrawnNumbers, length: i64) -> i64 {
    let part = numbers.next(0, 1024);
    (part.wrapping_mul(length.wrapping_sub(3)) / 1024).wrapping_add(2)
}

/// The text of a scene of eight disks side by side in a box of ten columns or more; none is refused.
pub fn wide(alloc: Global, numbers: &mut DrawnNumbers) -> Result<String, AllocError> {
    let width = numbers.next(200, 20);
    let height = numbers.next(20, 21);
    let rows = field_rows(alloc, numbers, 8, 17)?;
    let sizes = format!(in alloc; "width = {width}\nheight = {height}\ndiameter = 4\n")?;
    scene(alloc, sizes.as_str(), 8, 60, rows.as_str())
}

/// The text of a scene of three rows of 24 disks in a box of 30 columns, up to tick 400; none is refused.
pub fn crowd(alloc: Global, numbers: &mut DrawnNumbers) -> Result<String, AllocError> {
    let rows = field_rows(alloc, numbers, 72, 15)?;
    scene(
        alloc,
        "width = 600\nheight = 60\ndiameter = 4\n",
        8,
        400,
        rows.as_str(),
    )
}

// Rows of disks, each of which has a field of its own, 25 units wide.
fn field_rows(
    alloc: Global,
    numbers: &mut DrawnNumbers,
    places: u32,
    heights: u64,
) -> Result<String, AllocError>
    requires { 0 < heights }
{
    let mut rows = String::new(alloc);
    for place in 0..places {
        rows.push_str(field_row(alloc, numbers, place, heights)?.as_str())?;
    }
    Ok(rows)
}

// The row of the disk at a place, from 0 on: 24 fields side by side, and the next ones 20 units above them. In its
// field the disk is at one of `heights` heights.
fn field_row(
    alloc: Global,
    numbers: &mut DrawnNumbers,
    place: u32,
    heights: u64,
) -> Result<String, AllocError>
    requires { 0 < heights }
{
    let x = i64::from(place % 24)
        .wrapping_mul(25)
        .wrapping_add(numbers.next(2, 20));
    let y = i64::from(place / 24)
        .wrapping_mul(20)
        .wrapping_add(numbers.next(2, heights));
    let (vx, vy) = (numbers.next(-4, 9), numbers.next(-4, 9));
    format!(in alloc; "[{x}, {y}, {vx}, {vy}],")
}
