// The flat set, filled into lent buffers of any length.
ghost use Rattle.std.specs.Prelude.{◌≡◌, ◌<◌, length};
ghost use Rattle.common.specs.Flat.{tabulate, in_rows, flat_lookup, flat_rows, flat_bits, flat_orders};

pub fn flat_set(
    lookup: &mut [u8],
    frequencies: &mut [u16],
    bits: &mut [u16],
    orders: &mut [u16],
    coefficients: &mut [u16],
)
    ensures lookups { lookup.new ≡ flat_lookup (length lookup.old) }
    ensures spectral { frequencies.new ≡ flat_rows (length frequencies.old) }
    ensures costs { bits.new ≡ flat_bits (length bits.old) }
    ensures order { orders.new ≡ flat_orders (length orders.old) }
    ensures tns { coefficients.new ≡ flat_rows (length coefficients.old) }
{
    fill_lookup(lookup);
    fill_rows(frequencies, 17, 64, 60);
    fill_rows(bits, 17, 8192, 8383);
    fill_rows(orders, 8, 128, 128);
    fill_rows(coefficients, 17, 64, 60);
}

fn fill_lookup(lookup: &mut [u8])
    ensures { lookup.new ≡ flat_lookup (length lookup.old) }
{
    for (i, entry) in lookup.iter_mut().enumerate() {
        *entry = (i % 64) as u8;
    }
}

fn fill_rows(part: &mut [u16], width: usize, first: u16, rest: u16)
    requires { 0 < width }
    ensures { part.new ≡ tabulate (in_rows width first rest) 0 (length part.old) }
{
    for (i, entry) in part.iter_mut().enumerate() {
        *entry = if i % width == 0 { first } else { rest };
    }
}
