// The worked blocks: each is made into a skin, which is measured, and whose bytes are written and checked; what it has is printed.
#![tactic(auto)]

use anyhow::anyhow;
use checker::{check, work_needed};
use skins::Skin;
use std::alloc::{AllocError, Global};
use std::io;
use volume::{Part, measure};

// A point by its places along x, y and z, or how many there are along each.
type Point = [u8; 3];

// Inside points are 255 and the others 0, with the threshold between.
const INSIDE: u8 = 255;

const THRESHOLD: u8 = 128;

// The eight points around 2 2 1.
const RING: [Point; 8] = [
    [1, 1, 1],
    [2, 1, 1],
    [3, 1, 1],
    [1, 2, 1],
    [3, 2, 1],
    [1, 3, 1],
    [2, 3, 1],
    [3, 3, 1],
];

fn main(rt: HostRuntime) -> anyhow::Result<()> {
    let heap = rt.alloc();
    let worked = [
        ("A", block(heap, [2, 2, 2], |_| false)?),
        ("B", block(heap, [3, 3, 3], |p| p == [1, 1, 1])?),
        (
            "C",
            block(heap, [4, 3, 3], |p| [[1, 1, 1], [2, 1, 1]].contains(&p))?,
        ),
        (
            "D",
            block(heap, [4, 4, 4], |p| [[1, 1, 1], [2, 2, 2]].contains(&p))?,
        ),
        (
            "E",
            block(heap, [4, 4, 3], |p| [[1, 2, 1], [2, 1, 1]].contains(&p))?,
        ),
        ("F", block(heap, [5, 5, 3], |p| RING.contains(&p))?),
        ("G", block(heap, [5, 5, 5], is_around)?),
    ];
    for (name, bytes) in &worked {
        let skin = made(&rt, name, bytes.as_slice())?;
        show_parts(&rt, skin.parts.as_slice())?;
        show_verdict(&rt, &skin)?;
    }
    show_largest(&rt)
}

// The 26 points around 2 2 2.
fn is_around(p: Point) -> bool {
    p != [2, 2, 2] && p.iter().all(|i| (1..4).contains(i))
}

// Every second point of the largest block, but for the border.
fn alternates(p: Point) -> bool {
    let odd = p.iter().filter(|i| **i % 2 == 1).count();
    odd % 2 == 0 && p.iter().all(|i| (1..95).contains(i))
}

// A block of some size, with the points inside that are told to be.
fn block<F: Fn(Point) -> bool>(
    heap: Global,
    size: Point,
    is_inside: F,
) -> Result<Vec<u8>, AllocError>
    requires { F.IsAlwaysCallable is_inside }
{
    let [a, b, c] = size;
    let mut bytes = vec![in heap; a, b, c, THRESHOLD]?;
    for z in 0..c {
        for y in 0..b {
            for x in 0..a {
                bytes.push(if is_inside([x, y, z]) { INSIDE } else { 0 })?;
            }
        }
    }
    Ok(bytes)
}

// The skin of a block, and a line of what it has.
fn made(rt: &HostRuntime, name: &str, bytes: &[u8]) -> anyhow::Result<Skin> {
    let skin = Skin::of(rt.alloc(), bytes).map_err(|trouble| anyhow!("{name}: {trouble:?}"))?;
    println!(rt;
        "{name} triangles {} corners {}",
        skin.made.triangles, skin.made.corners
    )?;
    Ok(skin)
}

fn show_parts(rt: &HostRuntime, parts: &[Part]) -> io::Result<()> {
    for (i, part) in parts.iter().enumerate() {
        println!(rt; "  part {i} {part}")?;
    }
    Ok(())
}

// What the checker says of the skin's bytes.
fn show_verdict(rt: &HostRuntime, skin: &Skin) -> anyhow::Result<()> {
    let mut bytes = Vec::new(rt.alloc());
    skin.write_to(&mut bytes)?;
    let room = work_needed(skin.made.corners, skin.made.triangles);
    let mut work = vec![in rt.alloc(); 0u32; room]?;
    match check(bytes.as_slice(), work.as_mut_slice()) {
        Ok(()) => println!(rt; "  closed")?,
        Err(refusal) => println!(rt; "  {refusal}")?,
    }
    Ok(())
}

// The largest block, with nearly as many corners and triangles as there can be: measured once more, with a test of each sum.
fn show_largest(rt: &HostRuntime) -> anyhow::Result<()> {
    let bytes = block(rt.alloc(), [96, 96, 96], alternates)?;
    let skin = made(rt, "alternating", bytes.as_slice())?;
    let mut parts = vec![in rt.alloc(); Part::NOTHING; skin.parts.len()]?;
    let measured = measure(
        skin.corners.as_slice(),
        skin.triangles.as_slice(),
        parts.as_mut_slice(),
    );
    println!(rt; "  parts {} measured {measured}", skin.made.parts)?;
    Ok(show_parts(rt, parts.as_slice())?)
}
