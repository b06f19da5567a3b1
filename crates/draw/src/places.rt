//! Where the tracks of a picture stand.
use account::{Role, Track};
use std::alloc::{AllocError, Global};

/// The left edge of the first track.
const LEFT: u64 = 18;

/// Between two processors, and between two domains.
const GAP: u64 = 8;

const WIDE_GAP: u64 = 26;

/// The tracks of a picture with their left edges.
#[derive(Drop)]
pub struct Places {
    tracks: Vec<(Track, u64)>,
    /// The first tracks of processors, with their left edges.
    heads: Vec<(Track, u64)>,
    /// The left and the right edge of each band.
    bands: [Option<(u64, u64)>; 8],
    /// The right edge of the last one.
    pub width: u64,
}

/// How wide a track is.
fn width_of(role: Role) -> u64 {
    match role {
        Role::Periods => 24,
        Role::Sections => 15,
        Role::Marks => 15,
        Role::Jobs => 20,
    }
}

/// What stands between a track and the next one.
fn gap(last: Track, next: Track) -> u64 {
    if last.band != next.band {
        WIDE_GAP
    } else if last.processor != next.processor {
        GAP
    } else {
        0
    }
}

/// Widens the band of a track by it.
fn widen(bands: &mut [Option<(u64, u64)>; 8], track: Track, x: u64) {
    if let Some(edges) = bands.get_mut(track.band as usize) {
        let (left, _) = edges.unwrap_or((x, x));
        *edges = Some((left, x.saturating_add(width_of(track.role))));
    }
}

impl Places {
    /// Gives each track its place, from left to right.
    pub fn new(alloc: Global, tracks: &[Track]) -> Result<Places, AllocError> {
        let mut all: Vec<(Track, u64)> = Vec::new(alloc);
        let mut heads: Vec<(Track, u64)> = Vec::new(alloc);
        let mut bands = [None; 8];
        let mut x = LEFT;
        let mut last: Option<Track> = None;
        for track in tracks {
            if let Some(last) = last {
                x = x
                    .saturating_add(width_of(last.role))
                    .saturating_add(gap(last, *track));
            }
            all.push((*track, x))?;
            if track.role == Role::Sections && track.place == 0 {
                heads.push((*track, x))?;
            }
            widen(&mut bands, *track, x);
            last = Some(*track);
        }
        let width = match last {
            Some(last) => x.saturating_add(width_of(last.role)),
            None => 0,
        };
        Ok(Places {
            tracks: all,
            heads,
            bands,
            width,
        })
    }

    /// The left edge of a track.
    pub fn of(&self, track: Track) -> Option<u64> {
        let found = self
            .tracks
            .binary_search_by_key(&track, |(known, _)| *known);
        let (_, x) = self.tracks.get(found.ok()?)?;
        Some(*x)
    }

    /// The first track of each processor's sections with its left edge, from left to right.
    pub fn heads(&self) -> &[(Track, u64)] {
        &self.heads
    }

    /// The left and the right edge of a band.
    pub fn band(&self, band: u8) -> (u64, u64) {
        self.bands
            .get(band as usize)
            .copied()
            .flatten()
            .unwrap_or((0, 0))
    }
}
