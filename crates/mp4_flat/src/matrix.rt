//! Transformation matrices of video.

ghost use Rattle.std.specs.Prelude.{◌≡◌, ◌≤◌, ◌+◌, ◌↔◌, IsTrue, length, take};
ghost use Rattle.mp4_frame.specs.Bytes.{number, bytes_of_fields_onto};
ghost use Rattle.mp4_flat.specs.Matrix.{matrix_at, fields_matrix, numbers_matrix, IsMatrix};

use mp4_frame::{i32_at, put_i32};
use std::fmt;

/// A transformation of video, which maps the point (p, q) to (m / z, n / z), where m = a·p + c·q + x,
/// n = b·p + d·q + y and z = u·p + v·q + w (ISO/IEC 14496-12, 6.2.2). The numbers are fixed-point: u, v and w have
/// 30 bits after the point, the others 16.
#[derive(Clone, Debug, Drop, PartialEq, Eq)]
pub struct Matrix {
    /// The factor of p in m.
    pub a: i32,
    /// The factor of p in n.
    pub b: i32,
    /// The factor of p in z.
    pub u: i32,
    /// The factor of q in m.
    pub c: i32,
    /// The factor of q in n.
    pub d: i32,
    /// The factor of q in z.
    pub v: i32,
    /// The constant term of m.
    pub x: i32,
    /// The constant term of n.
    pub y: i32,
    /// The constant term of z.
    pub w: i32,
}

/// The identity, which maps each point to itself.
impl Default for Matrix {
    ghost use Rattle.mp4_flat.specs.Matrix.{unity};

    ghost is_default = { λ m. m ≡ unity };

    fn default() -> Matrix {
        Matrix {
            a: 0x1_0000,
            b: 0,
            u: 0,
            c: 0,
            d: 0x1_0000,
            v: 0,
            x: 0,
            y: 0,
            w: 0x4000_0000,
        }
    }
}

/// Shows the nine numbers in hexadecimal. A negative number is shown as its two's complement.
impl fmt::Display for Matrix {
    fn fmt<W: fmt::Write>(&self, f: &mut fmt::Formatter<W>) -> fmt::Result {
        write!(
            f,
            "{:#x} {:#x} {:#x} {:#x} {:#x} {:#x} {:#x} {:#x} {:#x}",
            self.a, self.b, self.u, self.c, self.d, self.v, self.x, self.y, self.w
        )
    }
}

impl Matrix {
    /// Returns the numbers in the order of the file.
    fn numbers(&self) -> [i32; 9]
        ensures { result ≡ numbers_matrix self.now }
    {
        [
            self.a, self.b, self.u, self.c, self.d, self.v, self.x, self.y, self.w,
        ]
    }
}

/// Returns true, always. For the prover: each number of `matrix` has the range of its type.
pub fn is_matrix(matrix: &Matrix) -> bool
    ensures { IsTrue result ↔ IsMatrix matrix.now }
{
    // For the prover: a value that was read has the range of its type.
    let _numbers = matrix.numbers();
    true
}

/// Returns the matrix at offset `at` of `bytes`.
pub fn matrix_from(bytes: &[u8], at: usize) -> Matrix
    requires { at + 36 ≤ length bytes.now }
    ensures { result ≡ matrix_at (number bytes.now) at }
{
    Matrix {
        a: i32_at(bytes, at),
        b: i32_at(bytes, at + 4),
        u: i32_at(bytes, at + 8),
        c: i32_at(bytes, at + 12),
        d: i32_at(bytes, at + 16),
        v: i32_at(bytes, at + 20),
        x: i32_at(bytes, at + 24),
        y: i32_at(bytes, at + 28),
        w: i32_at(bytes, at + 32),
    }
}

/// Writes `matrix` to `out` at offset `at`, and returns the offset after it.
#[tactic(auto, unfolding(mp4_frame::specs::Bytes::bytes_of_fields_onto))]
pub fn put_matrix(out: &mut [u8], at: usize, matrix: &Matrix) -> usize
    requires matrix { IsMatrix matrix.now }
    requires room { at + 36 ≤ length out.old }
    ensures next { result ≡ at + 36 }
    ensures put { take result out.new ≡ bytes_of_fields_onto (take at out.old) (fields_matrix matrix.now) }
{
    let at = put_i32(out, at, matrix.a);
    let at = put_i32(out, at, matrix.b);
    let at = put_i32(out, at, matrix.u);
    let at = put_i32(out, at, matrix.c);
    let at = put_i32(out, at, matrix.d);
    let at = put_i32(out, at, matrix.v);
    let at = put_i32(out, at, matrix.x);
    let at = put_i32(out, at, matrix.y);
    put_i32(out, at, matrix.w)
}
