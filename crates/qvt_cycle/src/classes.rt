//! Classes of numbers: numbers that lead to each other have one class (strongly connected components, after Tarjan).
//! Nothing rests on these classes: whoever uses them looks through them first.

use crate::counts::zeros;
use crate::lists::Positions;
use qvt_base::list_fault::ListFault;
use qvt_base::seq::Seq;
use std::alloc::Global;

/// A number whose list is looked through, and the place in the list.
#[derive(Drop)]
struct Frame {
    number: u32,
    next: usize,
}

/// A walk in depth. An order or a class of 0 is none yet.
#[derive(Drop)]
struct Walk {
    orders: Vec<u32>,
    lows: Vec<u32>,
    classes: Vec<u32>,
    waiting: Positions,
    frames: Seq<Frame>,
    root: u32,
    visited: u32,
    finished: u32,
}

fn value_at(values: &Vec<u32>, number: u32) -> u32 {
    match values.as_slice().get(number as usize) {
        Some(value) => *value,
        None => 0,
    }
}

fn set_value(values: &mut Vec<u32>, number: u32, value: u32) {
    let at = number as usize;
    if at < values.len() {
        values[at] = value;
    }
}

/// What stands at a place of a number's list.
fn successor(lists: &[Positions], number: u32, place: usize) -> Option<u32> {
    match lists.get(number as usize) {
        Some(list) => match list.as_slice().get(place) {
            Some(other) => Some(*other),
            None => None,
        },
        None => None,
    }
}

impl Walk {
    fn new(alloc: Global, lists: &[Positions]) -> Result<Walk, ListFault> {
        Ok(Walk {
            orders: zeros(alloc, lists)?,
            lows: zeros(alloc, lists)?,
            classes: zeros(alloc, lists)?,
            waiting: Seq::new(alloc),
            frames: Seq::new(alloc),
            root: 0,
            visited: 0,
            finished: 0,
        })
    }

    fn enter(&mut self, number: u32) -> Result<(), ListFault> {
        self.visited = self.visited.saturating_add(1);
        set_value(&mut self.orders, number, self.visited);
        set_value(&mut self.lows, number, self.visited);
        self.waiting.push(number)?;
        self.frames.push(Frame { number, next: 0 })
    }

    fn lower(&mut self, number: u32, low: u32) {
        let least = value_at(&self.lows, number).min(low);
        set_value(&mut self.lows, number, least);
    }

    /// A step from one number to another.
    fn follow(&mut self, number: u32, other: u32) -> Result<(), ListFault> {
        let order = value_at(&self.orders, other);
        if order == 0 {
            return self.enter(other);
        }
        if value_at(&self.classes, other) == 0 {
            self.lower(number, order);
        }
        Ok(())
    }

    /// Gives all that wait down to this number one class.
    fn close(&mut self, number: u32) {
        self.finished = self.finished.saturating_add(1);
        for _ in 0..self.waiting.len() {
            match self.waiting.pop() {
                None => return,
                Some(other) => {
                    set_value(&mut self.classes, other, self.finished);
                    if other == number {
                        return;
                    }
                }
            }
        }
    }

    fn leave(&mut self, number: u32) -> Result<(), ListFault> {
        let low = value_at(&self.lows, number);
        if low == value_at(&self.orders, number) {
            self.close(number);
        }
        if let Some(parent) = self.frames.pop() {
            self.lower(parent.number, low);
            self.frames.push(parent)?;
        }
        Ok(())
    }

    /// Begins at the next number that was not visited.
    fn begin(&mut self) -> Result<(), ListFault> {
        let root = self.root;
        self.root = root.saturating_add(1);
        if (root as usize) < self.orders.len() && value_at(&self.orders, root) == 0 {
            self.enter(root)?;
        }
        Ok(())
    }

    fn step(&mut self, lists: &[Positions]) -> Result<(), ListFault> {
        let Some(frame) = self.frames.pop() else {
            return self.begin();
        };
        let Some(other) = successor(lists, frame.number, frame.next) else {
            return self.leave(frame.number);
        };
        let next = frame.next.saturating_add(1);
        let number = frame.number;
        self.frames.push(Frame { number, next })?;
        self.follow(number, other)
    }
}

/// How many steps a walk takes: two for each number, and one for each that stands in a list.
fn step_count(lists: &[Positions]) -> usize {
    let mut count: usize = 0;
    for list in lists {
        count = count.saturating_add(2).saturating_add(list.len());
    }
    count
}

/// A class for each number. Where a number leads to one of another class, the class of that is less.
pub fn classes(alloc: Global, lists: &[Positions]) -> Result<Vec<u32>, ListFault> {
    let mut walk = Walk::new(alloc, lists)?;
    for _ in 0..step_count(lists) {
        walk.step(lists)?;
    }
    let Walk { classes, .. } = walk;
    Ok(classes)
}
