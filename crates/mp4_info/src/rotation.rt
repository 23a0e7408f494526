//! The rotation of a track's pictures.

ghost use Rattle.std.specs.Prelude.{◌≡◌};
ghost use Rattle.mp4_info.specs.Rotation.{is_turn, rotation_of, turn_of};

use mp4_flat::Matrix;

/// 1 with 16 bits after the point.
const ONE: u32 = 0x1_0000;

/// -1 with 16 bits after the point, as 32 bits.
const MINUS_ONE: u32 = 0xFFFF_0000;

/// Four numbers of a matrix: a, b, c and d, as 32 bits each.
type Four = (u32, u32, u32, u32);

/// Returns whether `found` are the numbers of `turn`.
fn is_turn(turn: Four, found: Four) -> bool
    ensures { result ≡ is_turn turn.0 turn.1 turn.2 turn.3 found.0 found.1 found.2 found.3 }
{
    found.0 == turn.0 && found.1 == turn.1 && found.2 == turn.2 && found.3 == turn.3
}

/// Returns the degrees of the turn that `found` are, or `None` if they are none.
fn turn_of(found: Four) -> Option<u16>
    ensures { result ≡ turn_of found.0 found.1 found.2 found.3 }
{
    if is_turn((ONE, 0, 0, ONE), found) {
        Some(0)
    } else if is_turn((0, ONE, MINUS_ONE, 0), found) {
        Some(90)
    } else if is_turn((MINUS_ONE, 0, 0, MINUS_ONE), found) {
        Some(180)
    } else if is_turn((0, MINUS_ONE, ONE, 0), found) {
        Some(270)
    } else {
        None
    }
}

/// Returns the degrees by which `matrix` turns pictures clockwise, or `None` if it does something else than a turn by a
/// multiple of 90 degrees.
pub fn rotation_of(matrix: &Matrix) -> Option<u16>
    ensures { result ≡ rotation_of matrix.now }
{
    turn_of((
        matrix.a.cast_unsigned(),
        matrix.b.cast_unsigned(),
        matrix.c.cast_unsigned(),
        matrix.d.cast_unsigned(),
    ))
}
