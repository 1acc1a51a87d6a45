// The calls of `host`, exported: each calls the function of that name, and promises what it does.
#![tactic(auto)]

ghost use Rattle.std.specs.Prelude.{◌≡◌, cond, ◌/◌, length};
ghost use Rattle.common.specs.Flat.{flat_lookup, flat_rows, flat_bits, flat_orders};
ghost use Rattle.common.specs.Tables.{tables_of, tables_pass};
ghost use Rattle.frame_reader.specs.Frame.{read_frame};
ghost use Rattle.frame_reader.specs.Returned.{told as Returned·told, lines_behind};
ghost use Rattle.frame_writer.specs.Frame.{write_frame};
ghost use Rattle.frame_writer.specs.Returned.{frame_behind};
ghost use Rattle.host.specs.Given.{content_of};
ghost use Rattle.host.specs.Many.{accepted_of, lines_after};
ghost use Rattle.host.specs.Told.{number_of, words_behind, numbers_behind, indices_behind, residual_behind, place_behind, next_or_place};
ghost use Rattle.recording.specs.Writer.{write_field, buffer_behind, end_behind};

// Reads one frame: 0 where it is accepted, else the refusal's number. What else there is to tell is laid over the lent slices.
#[unsafe(no_mangle)]
pub extern "C" fn lc3_read_frame(
    fs_ind: usize,
    duration: usize,
    reading: usize,
    lookup: &[u8],
    frequencies: &[u16],
    bits: &[u16],
    orders: &[u16],
    coefficients: &[u16],
    frame: &[u8],
    lines: &mut [i32],
    words: &mut [u32],
    numbers: &mut [usize],
    indices: &mut [usize],
    residual: &mut [u8],
) -> u32
    ensures number { result ≡ number_of (read_frame (record { fs_ind = fs_ind; duration = duration; reading = reading }) (tables_of lookup.now frequencies.now bits.now orders.now coefficients.now) (length lines.old) frame.now) }
    ensures lent { lines.new ≡ lines_behind (read_frame (record { fs_ind = fs_ind; duration = duration; reading = reading }) (tables_of lookup.now frequencies.now bits.now orders.now coefficients.now) (length lines.old) frame.now) lines.old }
    ensures record_and_sums { words.new ≡ words_behind (Returned·told reading (read_frame (record { fs_ind = fs_ind; duration = duration; reading = reading }) (tables_of lookup.now frequencies.now bits.now orders.now coefficients.now) (length lines.old) frame.now)) words.old }
    ensures counts_or_place { numbers.new ≡ numbers_behind (Returned·told reading (read_frame (record { fs_ind = fs_ind; duration = duration; reading = reading }) (tables_of lookup.now frequencies.now bits.now orders.now coefficients.now) (length lines.old) frame.now)) numbers.old }
    ensures tns { indices.new ≡ indices_behind (read_frame (record { fs_ind = fs_ind; duration = duration; reading = reading }) (tables_of lookup.now frequencies.now bits.now orders.now coefficients.now) (length lines.old) frame.now) indices.old }
    ensures list { residual.new ≡ residual_behind (read_frame (record { fs_ind = fs_ind; duration = duration; reading = reading }) (tables_of lookup.now frequencies.now bits.now orders.now coefficients.now) (length lines.old) frame.now) residual.old }
{
    host::lc3_read_frame(
        fs_ind,
        duration,
        reading,
        lookup,
        frequencies,
        bits,
        orders,
        coefficients,
        frame,
        lines,
        words,
        numbers,
        indices,
        residual,
    )
}

// Writes one frame of the record that the slices give: 0 where it is accepted, else the refusal's number, and its place is laid over numbers.
#[unsafe(no_mangle)]
pub extern "C" fn lc3_write_frame(
    fs_ind: usize,
    duration: usize,
    reading: usize,
    lookup: &[u8],
    frequencies: &[u16],
    bits: &[u16],
    orders: &[u16],
    coefficients: &[u16],
    words: &[u32],
    first_order: usize,
    second_order: usize,
    indices: &[usize],
    lines: &[i16],
    residual: &[u8],
    frame: &mut [u8],
    numbers: &mut [usize],
) -> u32
    ensures number { result ≡ number_of (write_frame (record { fs_ind = fs_ind; duration = duration; reading = reading }) (tables_of lookup.now frequencies.now bits.now orders.now coefficients.now) (content_of words.now first_order second_order indices.now lines.now residual.now) (length frame.old)) }
    ensures lent { frame.new ≡ frame_behind (write_frame (record { fs_ind = fs_ind; duration = duration; reading = reading }) (tables_of lookup.now frequencies.now bits.now orders.now coefficients.now) (content_of words.now first_order second_order indices.now lines.now residual.now) (length frame.old)) frame.old }
    ensures place { numbers.new ≡ place_behind (write_frame (record { fs_ind = fs_ind; duration = duration; reading = reading }) (tables_of lookup.now frequencies.now bits.now orders.now coefficients.now) (content_of words.now first_order second_order indices.now lines.now residual.now) (length frame.old)) numbers.old }
{
    host::lc3_write_frame(
        fs_ind,
        duration,
        reading,
        lookup,
        frequencies,
        bits,
        orders,
        coefficients,
        words,
        first_order,
        second_order,
        indices,
        lines,
        residual,
        frame,
        numbers,
    )
}

// The same as a field at an offset: 0 where it is accepted, and where the next field begins is laid over numbers; else number and place.
#[unsafe(no_mangle)]
pub extern "C" fn lc3_write_field(
    fs_ind: usize,
    duration: usize,
    reading: usize,
    lookup: &[u8],
    frequencies: &[u16],
    bits: &[u16],
    orders: &[u16],
    coefficients: &[u16],
    words: &[u32],
    first_order: usize,
    second_order: usize,
    indices: &[usize],
    lines: &[i16],
    residual: &[u8],
    buffer: &mut [u8],
    offset: usize,
    bytes: usize,
    numbers: &mut [usize],
) -> u32
    ensures number { result ≡ number_of (write_field (record { fs_ind = fs_ind; duration = duration; reading = reading }) (tables_of lookup.now frequencies.now bits.now orders.now coefficients.now) (content_of words.now first_order second_order indices.now lines.now residual.now) bytes (length buffer.old) offset) }
    ensures lent { buffer.new ≡ buffer_behind (write_field (record { fs_ind = fs_ind; duration = duration; reading = reading }) (tables_of lookup.now frequencies.now bits.now orders.now coefficients.now) (content_of words.now first_order second_order indices.now lines.now residual.now) bytes (length buffer.old) offset) offset buffer.old }
    ensures next_or_place { numbers.new ≡ next_or_place (end_behind (write_field (record { fs_ind = fs_ind; duration = duration; reading = reading }) (tables_of lookup.now frequencies.now bits.now orders.now coefficients.now) (content_of words.now first_order second_order indices.now lines.now residual.now) bytes (length buffer.old) offset) offset) numbers.old }
{
    host::lc3_write_field(
        fs_ind,
        duration,
        reading,
        lookup,
        frequencies,
        bits,
        orders,
        coefficients,
        words,
        first_order,
        second_order,
        indices,
        lines,
        residual,
        buffer,
        offset,
        bytes,
        numbers,
    )
}

// Whether a table set passes: 1 if it does, else 0.
#[unsafe(no_mangle)]
pub extern "C" fn lc3_tables_pass(
    lookup: &[u8],
    frequencies: &[u16],
    bits: &[u16],
    orders: &[u16],
    coefficients: &[u16],
) -> u32
    ensures { result ≡ cond (tables_pass (tables_of lookup.now frequencies.now bits.now orders.now coefficients.now)) 1 0 }
{
    host::lc3_tables_pass(lookup, frequencies, bits, orders, coefficients)
}

// Fills the flat set into the lent slices, each as far as it is long.
#[unsafe(no_mangle)]
pub extern "C" fn lc3_flat_set(
    lookup: &mut [u8],
    frequencies: &mut [u16],
    bits: &mut [u16],
    orders: &mut [u16],
    coefficients: &mut [u16],
)
    ensures lookups { lookup.new ≡ flat_lookup (length lookup.old) }
    ensures spectral { frequencies.new ≡ flat_rows (length frequencies.old) }
    ensures costs { bits.new ≡ flat_bits (length bits.old) }
    ensures order { orders.new ≡ flat_orders (length orders.old) }
    ensures tns { coefficients.new ≡ flat_rows (length coefficients.old) }
{
    host::lc3_flat_set(lookup, frequencies, bits, orders, coefficients)
}

// Reads frames of one length that stand one behind the other, each into the same lines: how many are accepted.
#[unsafe(no_mangle)]
pub extern "C" fn lc3_read_frames(
    fs_ind: usize,
    duration: usize,
    reading: usize,
    lookup: &[u8],
    frequencies: &[u16],
    bits: &[u16],
    orders: &[u16],
    coefficients: &[u16],
    frames: &[u8],
    bytes: usize,
    lines: &mut [i32],
) -> usize
    ensures number { result ≡ accepted_of (read_frame (record { fs_ind = fs_ind; duration = duration; reading = reading }) (tables_of lookup.now frequencies.now bits.now orders.now coefficients.now) (length lines.old)) (length frames.now / bytes) bytes frames.now }
    ensures lent { lines.new ≡ lines_after (read_frame (record { fs_ind = fs_ind; duration = duration; reading = reading }) (tables_of lookup.now frequencies.now bits.now orders.now coefficients.now) (length lines.old)) (length frames.now / bytes) bytes frames.now lines.old }
{
    host::lc3_read_frames(
        fs_ind,
        duration,
        reading,
        lookup,
        frequencies,
        bits,
        orders,
        coefficients,
        frames,
        bytes,
        lines,
    )
}
