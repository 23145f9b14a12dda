// A line's characters, gathered from parts of the input: as many are kept as there are places, and the rest is passed over.
ghost use Rattle.std.specs.Prelude.{◌≡◌, ◌≤◌, length, take};
ghost use Rattle.stream.specs.Stream.{kept_with, Gathers};

pub const LINE_FEED: u8 = 10;

// A character more, if it has to be kept.
fn keep(line: &mut [u8], kept: usize, b: u8) -> usize
    requires { kept ≤ length line.old }
    ensures { (result ≤ length line.old) × (take result line.new ≡ kept_with (length line.old) (take kept line.old) b) }
{
    if line.len() <= kept {
        return kept;
    }
    line[kept] = b;
    kept + 1
}

// How many bytes of a part were taken, how many characters are kept, and whether the line ended.
#[derive(Clone, Copy)]
pub struct Gathered {
    pub taken: usize,
    pub kept: usize,
    pub ended: bool,
}

// A line up to its line feed, or as much of it as the part has.
pub fn gather(line: &mut [u8], kept: usize, part: &[u8]) -> Gathered
    requires { kept ≤ length line.old }
    ensures { Gathers line.old kept part.now line.new result.taken result.kept result.ended }
{
    let mut count = kept;
    for (i, &b) in part.iter().enumerate() {
        if b == LINE_FEED {
            return Gathered {
                taken: i + 1,
                kept: count,
                ended: true,
            };
        }
        count = keep(line, count, b);
    }
    Gathered {
        taken: part.len(),
        kept: count,
        ended: false,
    }
}
