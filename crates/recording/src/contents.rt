// What a field holds, taken out of its content into lent arrays as far as both are long.
ghost use Rattle.std.specs.Prelude.{◌≡◌, get_or};
ghost use Rattle.std.proofs.lemmas.List.Edits.{sets};
ghost use Rattle.recording.specs.Contents.{words_of, configuration_of};

use common::configuration::Configuration;

fn byte_at(content: &[u8], i: usize) -> usize
    ensures { result ≡ get_or content.now i 0 }
{
    content.get(i).map_or(0, |&b| usize::from(b))
}

// The configuration of three bytes; a byte that is missing counts as 0.
pub fn configuration_of(content: &[u8]) -> Configuration
    ensures { result ≡ configuration_of content.now }
{
    Configuration {
        fs_ind: byte_at(content, 0),
        duration: byte_at(content, 1),
        reading: byte_at(content, 2),
    }
}

// The lookup's bytes.
pub fn take_bytes(content: &[u8], out: &mut [u8])
    ensures { out.new ≡ sets out.old 0 content.now }
{
    common::inner::lay(out, content);
}

// A table's 16-bit numbers.
pub fn take_words(content: &[u8], out: &mut [u16])
    ensures { out.new ≡ sets out.old 0 (words_of content.now) }
{
    for i in 0..out.len().min(content.len() / 2) {
        out[i] = u16::from_be_bytes([content[2 * i], content[2 * i + 1]]);
    }
}
