//! Jobs, from the lines that queued them to those that ran them.
use crate::deed::{Deed, Home, Row};
use lines::Name;
use std::alloc::{AllocError, Global};
use std::collections::BTreeMap;

/// A job, from the line that queued it to the one that ran it.
#[derive(Clone, Copy)]
pub struct Job {
    pub home: Home,
    pub processor: u16,
    pub name: Name,
    /// The number of the line that queued it.
    pub queued: u32,
    /// The number of the line that took it out of its processor's list. `None` where it lies there at the end.
    pub taken: Option<u32>,
    /// The number of the line that ran it. `None` where it hasn't run at the end.
    pub ran: Option<u32>,
}

/// The jobs of a processor: a list is first in, first out.
#[derive(Drop)]
struct Queue {
    /// Their places among all jobs.
    places: Vec<usize>,
    /// How many were taken out.
    taken: usize,
    /// How many ran.
    ran: usize,
}

impl Queue {
    /// Takes the first jobs out that lie in the list, so many. Those that are out run, if they do.
    fn pass(&mut self, jobs: &mut [Job], count: usize, are_run: bool, line: u32) {
        let taken = self.taken.saturating_add(count).min(self.places.len());
        for place in self.places.get(self.ran..taken).unwrap_or(&[]) {
            if let Some(job) = jobs.get_mut(*place) {
                job.taken = job.taken.or(Some(line));
                job.ran = if are_run { Some(line) } else { None };
            }
        }
        self.taken = taken;
        if are_run {
            self.ran = taken;
        }
    }
}

/// The jobs of all lines so far, and those of each processor of each domain.
#[derive(Drop)]
struct Lists {
    all: Vec<Job>,
    queues: BTreeMap<(u32, u16), Queue>,
}

impl Lists {
    /// A job was queued.
    fn queue(&mut self, job: Job) -> Result<(), AllocError> {
        let empty = Queue {
            places: Vec::new(*self.all.allocator()),
            taken: 0,
            ran: 0,
        };
        let queue = self
            .queues
            .entry((job.home.made, job.processor))?
            .or_insert(empty);
        queue.places.push(self.all.len())?;
        self.all.push(job)?;
        Ok(())
    }

    /// Does to the jobs what a line of the domain did.
    fn follow(&mut self, home: Home, row: &Row) -> Result<(), AllocError> {
        match row.deed {
            Deed::Queues { name, processor } => self.queue(Job {
                home,
                processor,
                name,
                queued: row.number,
                taken: None,
                ran: None,
            })?,
            Deed::Jobs {
                processor,
                taken,
                ran,
            } => {
                if let Some(queue) = self.queues.get_mut(&(home.made, processor)) {
                    queue.pass(&mut self.all, taken, ran > 0, row.number);
                }
            }
            _ => {}
        }
        Ok(())
    }
}

/// The jobs that these lines queued, in their order.
pub fn jobs(alloc: Global, rows: &[Row]) -> Result<Vec<Job>, AllocError> {
    let mut lists = Lists {
        all: Vec::new(alloc),
        queues: BTreeMap::new(alloc),
    };
    for row in rows {
        if let Some(home) = row.home {
            lists.follow(home, row)?;
        }
    }
    let Lists { all, .. } = lists;
    Ok(all)
}
