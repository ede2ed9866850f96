// The vertex that has a function or its inverse.
ghost use Rattle.std.specs.Prelude.{◌*◌, ◌/◌, ◌≤◌, length, ◌≡◌};
ghost use Rattle.sweep_state.specs.code.Meet.{twin_at};

use bdd::rows::owner_of;
use sweep_state::sweep::Sweep;

// The owner of a reference's row; the constant's for the row that is not stored.
pub fn find_twin(s: &Sweep<'_>, reference: u32) -> Option<u32>
    requires { reference / 2 * 4 ≤ length s.now.rows.now }
    ensures { result ≡ twin_at s.now.rows.now reference }
{
    let row = (reference / 2) as usize;
    if row == 0 {
        return Some(0);
    }
    let owner = owner_of(&s.rows[..], row);
    if owner == 0 {
        return None;
    }
    Some(owner as u32)
}
