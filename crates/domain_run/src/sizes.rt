// The numbers of a domain.
ghost use Rattle.std.specs.Prelude.{◌≡◌, ◌≤◌};
ghost use Rattle.domain_run.specs.Numbers.{numbers_for};
ghost use Rattle.mv_layout.specs.Limits.{Checked};

use mv_layout::Config;

/// The numbers of a domain of so many seats, 1 to 64, and objects, 1 to 16,777,216, in which a section holds `write_max`
/// objects at most, 1 to 64. They are in range wherever these are.
///
/// Each seat's log has slots for 64 full write sets. It is reclaimed from 32 write sets on, with write-backs where one more
/// write set would not be left room for. The opening time is 0.
pub fn config_of(seats: u32, objects: u32, write_max: u32) -> Config
    requires some { 1 ≤ write_max }
    requires few { write_max ≤ 64 }
    ensures numbers { result ≡ numbers_for seats objects write_max }
    ensures checked { 1 ≤ seats → seats ≤ 64 → 1 ≤ objects → objects ≤ 16777216 → Checked result }
{
    Config {
        seats,
        objects,
        slots: 64 * write_max,
        write_max,
        low: 32 * write_max,
        high: 63 * write_max,
        base: 0,
    }
}
