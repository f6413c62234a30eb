//! Whether the lines of an input are those that are stored.
use printer::each::each_line;
use printer::route::RoutedBytes;
use snapshot::ids::{Area, WordCount};

/// The memory of a printer: an input's words, the work area and a line.
#[derive(Drop)]
pub struct Space {
    pub words: [u32; WordCount::SNAPSHOT],
    pub area: Area,
    pub out: [u8; RoutedBytes::LIMIT],
}

// A line that is not as stored.
#[derive(Drop)]
struct Differs;

impl Space {
    /// Whether the printer prints these lines for an input.
    pub(crate) fn prints(&mut self, bytes: &[u8], lines: &[u8]) -> bool {
        let mut rest = lines;
        let mut compare = |line: &[u8]| -> Result<(), Differs> {
            rest = rest.strip_prefix(line).ok_or(Differs)?;
            Ok(())
        };
        let compared = each_line(
            bytes,
            &mut self.words,
            &mut self.area,
            &mut self.out,
            &mut compare,
        );
        compared.is_ok() && rest.is_empty()
    }
}
