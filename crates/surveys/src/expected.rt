// What a block's points alone say of its skin: its parts, its corners and what it encloses. It calls none of the libraries.
ghost use Rattle.std.specs.Prelude.{◌^◌, ◌<◌};

use crate::scan::{Point, STEPS, Scan, Step};
use crate::skin::{Corner, Skin, Triangle};
use std::alloc::{AllocError, Global};
use std::cmp::Ordering;
use std::mem;
use volume::Part;

// How many regions the points that belong fall into by grid steps. A skin has an outer part for each region inside, and an inner part for
// each region outside but the one with the border.
pub fn count_regions<F: Fn(Point) -> bool>(
    heap: Global,
    scan: &Scan,
    belongs: F,
) -> Result<usize, AllocError>
    requires { F.IsAlwaysCallable belongs }
{
    // A loop, and no `map`: it is not found that a closure passed in may be called along a chain over these points.
    let mut points = Vec::new(heap);
    for p in scan.points() {
        points.push(belongs(p))?;
    }
    let mut left = Left { scan, points };
    let mut count = 0usize;
    for p in scan.points() {
        if left.gives(p) {
            count = count.saturating_add(1);
            left.flood_from(heap, p)?;
        }
    }
    Ok(count)
}

// The points of a block that belong to a region which is not counted yet.
#[derive(Drop)]
struct Left<'a> {
    scan: &'a Scan,
    points: Vec<bool>,
}

impl Left<'_> {
    // Whether a point is left. From now on it is not.
    fn gives(&mut self, p: Point) -> bool {
        let Some(place) = self.scan.place(p) else {
            return false
        };
        self.points
            .get_mut(place)
            .is_some_and(|left| mem::take(left))
    }

    fn flood_from(&mut self, heap: Global, first: Point) -> Result<(), AllocError> {
        let mut waiting = vec![in heap; first]?;
        // As often as there are points, since each waits once: a `while let` shows no end.
        for _ in self.scan.points() {
            let Some(p) = waiting.pop() else { break };
            for step in STEPS {
                for q in [p.up(step), p.down(step)].into_iter().flatten() {
                    if self.gives(q) {
                        waiting.push(q)?;
                    }
                }
            }
        }
        Ok(())
    }
}

// How many grid steps lead from inside to outside: a skin has a corner for each.
pub fn count_crossings(scan: &Scan) -> usize {
    scan.points()
        .map(|p| count_crossings_from(scan, p))
        .fold(0usize, |count, more| count.saturating_add(more))
}

fn count_crossings_from(scan: &Scan, p: Point) -> usize {
    STEPS
        .iter()
        .filter(|step| scan.is_inside(p) != is_inside(scan, p.up(**step)))
        .count()
}

fn is_inside(scan: &Scan, p: Option<Point>) -> bool {
    p.is_some_and(|p| scan.is_inside(p))
}

// Whether each grid step from inside to outside has one corner on it, where the values say, and no other step has any.
pub fn lie_on_crossings(scan: &Scan, corners: &[Corner]) -> bool {
    scan.points().all(|p| STEPS
        .iter()
        .all(|step| lie_on_step(scan, corners, p, *step)))
}

// The same for one grid step.
fn lie_on_step(scan: &Scan, corners: &[Corner], p: Point, step: Step) -> bool {
    let on = corners
        .iter()
        .filter(|corner| lies_on(**corner, p, step))
        .count();
    let Some(q) = p.up(step) else { return on == 0 };
    let stands = |corner: Option<Corner>| corner.is_some_and(|corner| corners.contains(&corner));
    match (scan.is_inside(p), scan.is_inside(q)) {
        (true, false) => on == 1 && stands(corner_between(scan, p, q)),
        (false, true) => on == 1 && stands(corner_between(scan, q, p)),
        _ => on == 0,
    }
}

// Whether a corner lies strictly between the ends of a grid step up.
fn lies_on(corner: Corner, from: Point, step: Step) -> bool {
    offset(corner, from).is_some_and(|[x, y, z]| {
        let k = x.max(y).max(z);
        (1..256).contains(&k) && [x, y, z] == step.map(|axis| if axis == 0 { 0 } else { k })
    })
}

// How far a corner lies above a point along x, y and z, in 256ths of a grid step, unless it lies below along one.
fn offset(corner: Corner, from: Point) -> Option<[u16; 3]> {
    Some([
        corner.x.checked_sub(256 * u16::from(from.x))?,
        corner.y.checked_sub(256 * u16::from(from.y))?,
        corner.z.checked_sub(256 * u16::from(from.z))?,
    ])
}

// Where the corner of a crossing lies: the k-th of 256 parts of the way to the point outside, for
// k = 1 + 254 (2 (u - t) + 1) / (2 (u - v)) by the values u inside, v outside and the threshold t. None where these are no such values.
fn corner_between(scan: &Scan, inside: Point, outside: Point) -> Option<Corner> {
    let u = u32::from(scan.value(inside)?);
    let v = u32::from(scan.value(outside)?);
    let above = u.checked_sub(u32::from(scan.threshold))?;
    let across = u.checked_sub(v)?;
    let k = 1 + (254 * (2 * above + 1)).checked_div(2 * across)?;
    let k = u8::try_from(k).ok()?;
    Some(Corner {
        x: between(inside.x, outside.x, k),
        y: between(inside.y, outside.y, k),
        z: between(inside.z, outside.z, k),
    })
}

fn between(from: u8, to: u8, k: u8) -> u16 {
    let start = 256 * u16::from(from);
    match from.cmp(&to) {
        Ordering::Less => start + u16::from(k),
        Ordering::Equal => start,
        Ordering::Greater => start - u16::from(k),
    }
}

// Whether no two corners are at one place.
pub fn lie_apart(corners: &[Corner]) -> bool {
    corners
        .iter()
        .enumerate()
        .all(|(i, corner)| !corners[..i].contains(corner))
}

// Six times what all triangles of a skin enclose. The sum wraps, since how many triangles there are is not bounded here.
pub fn six_volumes(skin: &Skin) -> i64 {
    skin.triangles
        .iter()
        .fold(0i64, |sum, t| sum.wrapping_add(determinant(skin, *t)))
}

// The parts of a skin by flooding, and what the triangles of each sum up to.
pub fn parts_of(heap: Global, skin: &Skin) -> Result<Vec<Part>, AllocError> {
    let flooded = skin.flood(heap)?;
    let mut sums = vec![in heap; Sum::default(); flooded.count as usize]?;
    for (t, number) in skin.triangles.iter().zip(flooded.numbers.iter()) {
        if let Some(number) = *number {
            if let Some(sum) = sums.get_mut(number as usize) {
                sum.add(determinant(skin, *t));
            }
        }
    }
    sums.iter().map(|sum| Part::from(*sum)).collect(heap)
}

// How many triangles a part has, and six times what they enclose.
#[derive(Clone, Copy, Default)]
struct Sum {
    triangles: u32,
    six_volumes: i64,
}

impl Sum {
    fn add(&mut self, determinant: i64) {
        self.triangles = self.triangles.saturating_add(1);
        self.six_volumes = self.six_volumes.wrapping_add(determinant);
    }
}

impl From<Sum> for Part {
    fn from(sum: Sum) -> Part {
        let Sum {
            triangles,
            six_volumes,
        } = sum;
        if six_volumes > 0 {
            Part::Outer {
                triangles,
                six_volumes,
            }
        } else {
            Part::Inner {
                triangles,
                six_volumes,
            }
        }
    }
}

// The six products of three places, with their signs.
fn determinant(skin: &Skin, t: Triangle) -> i64 {
    let [a, b, c] = t.corners.map(|number| skin.corner(number));
    let even = product(a.x, b.y, c.z) + product(a.y, b.z, c.x) + product(a.z, b.x, c.y);
    let odd = product(a.x, b.z, c.y) + product(a.y, b.x, c.z) + product(a.z, b.y, c.x);
    even as i64 - odd as i64
}

fn product(x: u16, y: u16, z: u16) -> u64
    ensures bound { result < 2 ^ 48 }
{
    u64::from(x) * (u64::from(y) * u64::from(z))
}
