// The search for the gain index: eight halvings, each judged by what the energies cost at its level.
ghost use Rattle.std.specs.Prelude.{◌≡◌, ◌+◌, ◌≤◌};
ghost use Rattle.common.specs.Reply.{answer_by};
ghost use Rattle.spectral_quantization.specs.Gain.{reply_of, gain_for, searched, turn as Gain·turn, exceeds as Gain·exceeds};
ghost use Rattle.spectral_quantization.specs.Private.{cost_of_all, cost_with};

// Why the search refuses: 1 and 4 of document 01.
#[derive(Clone, Copy)]
pub enum GainError {
    OutsideLimits,
    WrongCount(usize),
}

// What the energies that were walked cost, and whether all of them lay below the level.
#[derive(Clone, Copy)]
struct Cost {
    bits: f32,
    zero: bool,
}

pub fn gain_index(energies: &[f32], offset: i16, target: usize) -> Result<u8, GainError>
    ensures { answer_by reply_of result ≡ gain_for energies.now offset target }
{
    if 65535 < target {
        return Err(GainError::OutsideLimits);
    }
    if 100 < energies.len() {
        return Err(GainError::WrongCount(energies.len()));
    }
    Ok(search(energies, f32::from(offset), target) as u8)
}

// The index stays between 0 and 255, so it is held without a sign. The offset comes as a float: its cast is exact.
fn search(energies: &[f32], offset: f32, target: usize) -> u16
    requires { target ≤ 65535 }
    ensures { result ≡ searched energies.now offset target }
{
    let mut fac: u16 = 256;
    let mut index: u16 = 255;
    for _ in 0usize..8 {
        fac >>= 1;
        index = turn(energies, offset, target, fac, index - fac);
    }
    index
}

fn turn(energies: &[f32], offset: f32, target: usize, fac: u16, index: u16) -> u16
    requires { (target ≤ 65535) × (index + fac ≤ 255) }
    ensures { result ≡ Gain·turn energies.now offset target fac index }
{
    if exceeds(energies, f32::from(index) + offset, target) {
        index + fac
    } else {
        index
    }
}

fn exceeds(energies: &[f32], level: f32, target: usize) -> bool
    requires { target ≤ 65535 }
    ensures { result ≡ Gain·exceeds energies.now level target }
{
    let cost = cost_at(energies, level);
    cost.bits > target as f32 * 1.4 * 28.0 / 20.0 && !cost.zero
}

fn cost_at(energies: &[f32], level: f32) -> Cost
    ensures { result ≡ cost_of_all level energies.now }
{
    let none = Cost {
        bits: 0.0,
        zero: true,
    };
    let from_last = energies.iter().rev().copied();
    from_last.fold(none, |cost, energy| with_energy(level, energy, cost))
}

fn with_energy(level: f32, energy: f32, cost: Cost) -> Cost
    ensures { result ≡ cost_with level energy cost }
{
    if energy * 28.0 / 20.0 < level {
        if cost.zero {
            return cost;
        }
        return Cost {
            bits: cost.bits + 2.7 * 28.0 / 20.0,
            zero: false,
        };
    }
    if level < energy * 28.0 / 20.0 - 43.0 * 28.0 / 20.0 {
        return Cost {
            bits: cost.bits + (2.0 * energy * 28.0 / 20.0 - 2.0 * level - 36.0 * 28.0 / 20.0),
            zero: false,
        };
    }
    Cost {
        bits: cost.bits + (energy * 28.0 / 20.0 - level + 7.0 * 28.0 / 20.0),
        zero: false,
    }
}
