// What a host gives of a frame that is to be written.
ghost use Rattle.std.specs.Prelude.{◌≡◌, get_or};
ghost use Rattle.frame_writer.specs.Returned.{content_of as lent_content};
ghost use Rattle.host.specs.Given.{side_of, places_of, content_of};

use common::inner::lay;
use frame_writer::Content;
use side_info::{SideInfo, Sns};

fn word(words: &[u32], k: usize) -> u32
    ensures { result ≡ get_or words.now k 0 }
{
    words.get(k).copied().unwrap_or(0)
}

fn sns(words: &[u32]) -> Sns
    ensures { result ≡ (side_of words.now).sns }
{
    Sns {
        lf: word(words, 7),
        hf: word(words, 8),
        msb: word(words, 9),
        submode_lsb: word(words, 10),
        gain: word(words, 11),
        ls_inda: word(words, 12),
        idx_a: word(words, 13),
        ls_indb: word(words, 14),
        idx_b: word(words, 15),
    }
}

fn side(words: &[u32]) -> SideInfo
    ensures { result ≡ side_of words.now }
{
    SideInfo {
        bandwidth: word(words, 0),
        lastnz: word(words, 1),
        lsb: word(words, 2),
        gain: word(words, 3),
        tns_first: word(words, 4),
        tns_second: word(words, 5),
        pitch: word(words, 6),
        sns: sns(words),
        active: word(words, 16),
        index: word(words, 17),
        noise: word(words, 18),
    }
}

fn places(indices: &[usize]) -> [usize; 16]
    ensures { result ≡ places_of indices.now }
{
    let mut found = [0; 16];
    lay(&mut found, indices);
    found
}

pub(crate) fn content<'a>(
    words: &[u32],
    first_order: usize,
    second_order: usize,
    indices: &[usize],
    lines: &'a [i16],
    residual: &'a [u8],
) -> Content<'a>
    ensures { lent_content result ≡ content_of words.now first_order second_order indices.now lines.now residual.now }
{
    Content {
        side: side(words),
        first_order,
        second_order,
        indices: places(indices),
        lines,
        residual,
    }
}
