//! What a page has no room for.
use account::{Role, Told, Track, View};
use std::alloc::{AllocError, Global};
use std::fmt::Write;

/// The tracks that aren't shown, from left to right.
#[derive(Drop)]
pub struct Omitted {
    pub tracks: Vec<Track>,
    /// The last one that is shown.
    pub last: Option<Track>,
}

impl Omitted {
    /// A sentence that says what isn't shown. Empty where all is.
    pub fn sentence(&self, alloc: Global, told: &Told, view: &View) -> Result<String, AllocError> {
        let mut text = String::new(alloc);
        for band in self.tracks.chunk_by(|one, other| one.band == other.band) {
            text.push_str(if text.is_empty() { ".. " } else { ", " })?;
            self.push_band(&mut text, band, told, view)?;
        }
        if !self.tracks.is_empty() {
            text.push_str(" (see `--domain`, `--processors`)")?;
        }
        Ok(text)
    }

    /// Puts what isn't shown of a band: these tracks.
    fn push_band(
        &self,
        text: &mut String,
        tracks: &[Track],
        told: &Told,
        view: &View,
    ) -> Result<(), AllocError> {
        let [first, ..] = tracks else {
            return Ok(());
        };
        let heads = tracks
            .iter()
            .filter(|it| it.role == Role::Sections && it.place == 0);
        let (band, processors) = (first.band, heads.count());
        if let (Some(processor), Some(last)) = (first.processor, self.last)
            && (last.band, last.processor) == (band, first.processor)
        {
            write!(text, "more of processor {processor} of ").map_err(|_| AllocError)?;
            push_names(text, band, told, view)?;
            text.push_str(if processors > 0 { ", " } else { "" })?;
        }
        match processors {
            _ if first.role == Role::Periods => text.push_str("domain ")?,
            0 => return Ok(()),
            1 => text.push_str("1 more processor of ")?,
            _ => write!(text, "{processors} more processors of ").map_err(|_| AllocError)?,
        }
        push_names(text, band, told, view)
    }
}

/// Puts the names of a band's domains, each once where they follow on each other.
fn push_names(text: &mut String, band: u8, told: &Told, view: &View) -> Result<(), AllocError> {
    let mut last: Option<&str> = None;
    for life in &told.lives {
        let name = str::from_utf8(life.name.as_bytes()).unwrap_or("?");
        if life.home.band != band || !view.has_domain(&life.name) || last == Some(name) {
            continue;
        }
        if last.is_some() {
            text.push_str(" and ")?;
        }
        text.push_str(name)?;
        last = Some(name);
    }
    Ok(())
}
