// The quantiser, one line at a time: a division and a sum in single precision, cut toward zero and held to 16 bits.
ghost use Rattle.std.specs.Prelude.{◌≡◌};
ghost use Rattle.spectral_quantization.specs.Quantiser.{quantised};

use std::num::saturating_f32_to_i16;

pub fn quantise(x: f32, gain: f32) -> i16
    ensures { result ≡ quantised x gain }
{
    if x >= 0.0 {
        saturating_f32_to_i16(x / gain + 0.375)
    } else {
        saturating_f32_to_i16(x / gain - 0.375)
    }
}
