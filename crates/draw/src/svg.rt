//! The text of an SVG.
use crate::style::STYLE;
use std::alloc::{AllocError, Global};
use std::io;
use std::io::Write;

/// An SVG, as far as it is written.
#[derive(Drop)]
pub struct Svg {
    out: Vec<u8>,
}

/// What stands for a byte: XML's own signs are escaped, and what isn't printable is `?`.
fn escaped(byte: u8) -> Option<&'static str> {
    match byte {
        b'&' => Some("&amp;"),
        b'<' => Some("&lt;"),
        b'>' => Some("&gt;"),
        b'"' => Some("&quot;"),
        b'\'' => Some("&#39;"),
        b' '..=b'~' => None,
        _ => Some("?"),
    }
}

impl Svg {
    /// Nothing is written.
    pub fn new(alloc: Global) -> Svg {
        Svg {
            out: Vec::new(alloc),
        }
    }

    /// What is written.
    pub fn into_text(self) -> Vec<u8> {
        let Svg { out } = self;
        out
    }

    /// How many bytes are written.
    pub fn len(&self) -> usize {
        self.out.len()
    }

    /// Begins a picture of this size. Blanks in its texts stay as they are.
    pub fn begin(&mut self, width: u64, height: u64) -> io::Result<()> {
        write!(
            self.out,
            "<svg xmlns=\"http://www.w3.org/2000/svg\" width=\"{width}\" height=\"{height}\" viewBox=\"0 0 {width} {height}\" "
        )?;
        write!(
            self.out,
            "font-family=\"DejaVu Sans Mono, Menlo, Consolas, monospace\" font-size=\"12\" xml:space=\"preserve\">\n"
        )
    }

    /// Puts the style, and the ground of the picture.
    pub fn styled(&mut self, width: u64, height: u64) -> io::Result<()> {
        write!(
            self.out,
            "<style>{STYLE}</style>\n<rect width=\"{width}\" height=\"{height}\" class=\"page\"/>\n"
        )
    }

    /// Ends the picture.
    pub fn finish(&mut self) -> io::Result<()> {
        write!(self.out, "</svg>\n")
    }

    /// Puts bytes as text.
    pub fn put(&mut self, text: &[u8]) -> Result<(), AllocError> {
        for byte in text {
            match escaped(*byte) {
                Some(instead) => self.out.extend_from_slice(instead.as_bytes())?,
                None => self.out.push(*byte)?,
            }
        }
        Ok(())
    }

    /// Begins a group with this title.
    pub fn open(&mut self, title: &[u8]) -> io::Result<()> {
        write!(self.out, "<g><title>")?;
        self.put(title)?;
        write!(self.out, "</title>")
    }

    /// Ends a group.
    pub fn close(&mut self) -> io::Result<()> {
        write!(self.out, "</g>\n")
    }

    /// A rectangle of this class.
    pub fn rect(&mut self, x: u64, y: u64, size: (u64, u64), class: &str) -> io::Result<()> {
        self.rounded(x, y, size, "", class)
    }

    /// A bar of this class.
    pub fn bar(&mut self, x: u64, y: u64, size: (u64, u64), class: &str) -> io::Result<()> {
        self.rounded(x, y, size, "rx=\"3\" ", class)
    }

    /// A rectangle of this class, with corners like these.
    pub fn rounded(
        &mut self,
        x: u64,
        y: u64,
        (width, height): (u64, u64),
        corners: &str,
        class: &str,
    ) -> io::Result<()> {
        write!(
            self.out,
            "<rect x=\"{x}\" y=\"{y}\" width=\"{width}\" height=\"{height}\" {corners}class=\"{class}\"/>"
        )
    }

    /// A line of this class.
    pub fn line(&mut self, from: (u64, u64), to: (u64, u64), class: &str) -> io::Result<()> {
        let ((x1, y1), (x2, y2)) = (from, to);
        write!(
            self.out,
            "<path d=\"M{x1} {y1}L{x2} {y2}\" class=\"{class}\"/>"
        )
    }

    /// A shape of this class, which begins there.
    pub fn path(&mut self, x: u64, y: u64, shape: &str, class: &str) -> io::Result<()> {
        write!(self.out, "<path d=\"M{x} {y}{shape}\" class=\"{class}\"/>")
    }

    /// A circle of this class.
    pub fn circle(&mut self, x: u64, y: u64, radius: u64, class: &str) -> io::Result<()> {
        write!(
            self.out,
            "<circle cx=\"{x}\" cy=\"{y}\" r=\"{radius}\" class=\"{class}\"/>"
        )
    }

    /// Text that begins there, with these attributes.
    pub fn text(&mut self, x: u64, y: u64, attributes: &str, text: &[u8]) -> io::Result<()> {
        write!(self.out, "<text x=\"{x}\" y=\"{y}\" {attributes}>")?;
        self.put(text)?;
        write!(self.out, "</text>")
    }

    /// Begins text of this class that goes up, with its middle there.
    pub fn upright(&mut self, x: u64, y: u64, class: &str) -> io::Result<()> {
        write!(
            self.out,
            "<text transform=\"translate({x},{y})rotate(-90)\" text-anchor=\"middle\" class=\"{class}\">"
        )
    }

    /// A new line in the text of the picture, which is not seen.
    pub fn end_line(&mut self) -> io::Result<()> {
        write!(self.out, "\n")
    }
}

impl Write for Svg {
    fn write(&mut self, buf: &[u8]) -> io::Result<usize> {
        self.out.write(buf)
    }

    fn flush(&mut self) -> io::Result<()> {
        Ok(())
    }
}
