// A block as the surveys make it and look at it: what each of its points holds. It calls none of the libraries.
ghost use Rattle.std.specs.Iterator.{at_most};

use std::alloc::{AllocError, Global};

// A point by its places along x, y and z.
#[derive(Clone, Copy)]
pub struct Point {
    pub x: u8,
    pub y: u8,
    pub z: u8,
}

// A step up along some of x, y and z.
pub type Step = [u8; 3];

// The seven steps up from a point: by one axis, two or three at a time.
pub const STEPS: [Step; 7] = [
    [1, 0, 0],
    [0, 1, 0],
    [1, 1, 0],
    [0, 0, 1],
    [1, 0, 1],
    [0, 1, 1],
    [1, 1, 1],
];

impl Point {
    // Where a step up leads, unless past what a point can say.
    pub fn up(self, step: Step) -> Option<Point> {
        self.moved(step, |at, by| at.checked_add(by))
    }

    // Where a step down leads, unless before the first place along an axis.
    pub fn down(self, step: Step) -> Option<Point> {
        self.moved(step, |at, by| at.checked_sub(by))
    }

    fn moved<F: Fn(u8, u8) -> Option<u8>>(self, step: Step, go: F) -> Option<Point>
        requires { F.IsAlwaysCallable go }
    {
        let [x, y, z] = step;
        Some(Point {
            x: go(self.x, x)?,
            y: go(self.y, y)?,
            z: go(self.z, z)?,
        })
    }
}

// How many points a block has along x, y and z.
#[derive(Clone, Copy)]
pub struct Size {
    pub x: u8,
    pub y: u8,
    pub z: u8,
}

impl Size {
    // Every point of a block, in the order of its bytes.
    pub fn points(self) -> Points {
        Points {
            size: self,
            next: Point { x: 0, y: 0, z: 0 },
            left: usize::from(self.x) * (usize::from(self.y) * usize::from(self.z)),
        }
    }

    // How many steps a point is from the border.
    pub fn depth(self, p: Point) -> u8 {
        let [x, y, z] = [(p.x, self.x), (p.y, self.y), (p.z, self.z)].map(|(at, count)| count
            .saturating_sub(1)
            .saturating_sub(at)
            .min(at));
        x.min(y).min(z)
    }

    // The place of a point in the order, if it is in the block.
    fn place(self, p: Point) -> Option<usize> {
        if p.x < self.x && p.y < self.y && p.z < self.z {
            let row = usize::from(p.y) + usize::from(self.y) * usize::from(p.z);
            Some(usize::from(p.x) + usize::from(self.x) * row)
        } else {
            None
        }
    }

    // The point after this one in the order.
    fn after(self, p: Point) -> Point {
        let x = p.x.saturating_add(1);
        if x < self.x {
            return Point { x, ..p };
        }
        let y = p.y.saturating_add(1);
        if y < self.y {
            return Point { x: 0, y, z: p.z };
        }
        Point {
            x: 0,
            y: 0,
            z: p.z.saturating_add(1),
        }
    }
}

// The points of a block that are still to come.
#[derive(Clone, Copy)]
pub struct Points {
    size: Size,
    next: Point,
    left: usize,
}

impl Iterator for Points {
    type Item = Point;

    ghost remaining = { λ s. at_most s.left };

    fn next(&mut self) -> Option<Point> {
        self.left = self.left.checked_sub(1)?;
        let point = self.next;
        self.next = self.size.after(point);
        Some(point)
    }
}

// Sizes, the threshold, and a value for each point.
#[derive(Drop)]
pub struct Scan {
    pub size: Size,
    pub threshold: u8,
    pub values: Vec<u8>,
}

impl Scan {
    // The block's bytes.
    pub fn bytes(&self, heap: Global) -> Result<Vec<u8>, AllocError> {
        let Size { x, y, z } = self.size;
        let mut bytes = vec![in heap; x, y, z, self.threshold]?;
        bytes.extend_from_slice(self.values.as_slice())?;
        Ok(bytes)
    }

    pub fn points(&self) -> Points {
        self.size.points()
    }

    // Where a point's value stands, if it is in the block.
    pub fn place(&self, p: Point) -> Option<usize> {
        self.size.place(p)
    }

    pub fn value(&self, p: Point) -> Option<u8> {
        self.values.get(self.place(p)?).copied()
    }

    pub fn is_inside(&self, p: Point) -> bool {
        self.value(p).is_some_and(|value| value >= self.threshold)
    }
}
