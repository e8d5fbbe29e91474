ghost use Rattle.std.specs.Prelude.{◌≡◌, IfOk};
ghost use Rattle.sk_expr.specs.PartViews.{v3_of};
ghost use Rattle.sk_face.specs.FaceRows.{face_normal, face_point};
ghost use Rattle.sk_face.specs.FaceViews.{face_of};
ghost use Rattle.sk_face.specs.SideLaws.{IsAcross};

use crate::NoMemory;
use sk_expr::V3;
use std::alloc::Global;

/// A face.
#[derive(Debug, Drop)]
pub enum FaceParts<const S: u32> {
    /// The plane through a point with a normal vector. A face of an earlier group is given so, by its numbers.
    Flat {
        /// A point of the face.
        on: V3<S>,
        /// The normal vector, of any length.
        normal: V3<S>,
    },
    /// The side that a line leaves when it is moved along a vector.
    Side {
        /// The line's first point.
        on: V3<S>,
        /// The line's second point.
        to: V3<S>,
        /// The vector.
        vector: V3<S>,
    },
}

/// The normal vector of a face. That of a side is the cross product of the line's vector, first point less second, and the
/// vector along which it is moved; at every point, without any rounding, it is at a right angle to both.
#[tactic(auto, using(crate::proofs::RightAngles::right_angles), unfolding(crate::specs::FaceRows::face_normal))]
pub fn face_normal<const S: u32>(alloc: Global, face: &FaceParts<S>) -> Result<V3<S>, NoMemory>
    ensures value { IfOk result (λ v. v3_of v ≡ face_normal (face_of face.now)) }
    ensures across { IfOk result (λ v. IsAcross S (face_of face.now) (v3_of v)) }
{
    match face {
        FaceParts::Flat { normal, .. } => {
            let normal = normal.copy(alloc)?;
            Ok(normal)
        }
        FaceParts::Side { on, to, vector } => {
            let on = on.copy(alloc)?;
            let to = to.copy(alloc)?;
            let along = on.less(alloc, to)?;
            let normal = along.cross(alloc, vector)?;
            Ok(normal)
        }
    }
}

/// The point of a face that its rows are taken from.
pub(crate) fn face_point<const S: u32>(
    alloc: Global,
    face: &FaceParts<S>,
) -> Result<V3<S>, NoMemory>
    ensures { IfOk result (λ v. v3_of v ≡ face_point (face_of face.now)) }
{
    match face {
        FaceParts::Flat { on, .. } => {
            let on = on.copy(alloc)?;
            Ok(on)
        }
        FaceParts::Side { on, .. } => {
            let on = on.copy(alloc)?;
            Ok(on)
        }
    }
}
