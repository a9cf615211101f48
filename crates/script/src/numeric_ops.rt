// Conversions and float operations.
use crate::desk::Desk;
use crate::line::Line;
use crate::operation::Operation;
use crate::words::{Record, Unknown};
use config::refusal::Refusal;
use numeric::integer::wrapping_mul;
use numeric::{duration, float};

#[derive(Clone, Copy)]
pub(crate) enum NumericOperation {
    F32OfU32(u32),
    F64OfU64(u64),
    U32OfF32(f32),
    U64OfF64(f64),
    MaxF32(f32, f32),
    ClampF32(f32, f32, f32),
    AbsF32(f32),
    AsSecsF64(u64),
    FromSecsF64(f64),
    WrappingMul(u64, u64),
}

impl TryFrom<Record> for NumericOperation {
    type Error = Unknown;

    fn try_from(r: Record) -> Result<Self, Unknown> {
        Ok(match r.operation {
            16 => Self::F32OfU32(r.a.into()),
            17 => Self::F64OfU64(r.a.into()),
            18 => Self::U32OfF32(r.a.into()),
            19 => Self::U64OfF64(r.a.into()),
            20 => Self::MaxF32(r.a.into(), r.b.into()),
            21 => Self::ClampF32(r.a.into(), r.b.into(), r.c.into()),
            22 => Self::AbsF32(r.a.into()),
            23 => Self::AsSecsF64(r.a.into()),
            24 => Self::FromSecsF64(r.a.into()),
            25 => Self::WrappingMul(r.a.into(), r.b.into()),
            _ => return Err(Unknown),
        })
    }
}

impl Operation for NumericOperation {
    type State = ();

    fn play(self, _state: &mut (), _desk: &mut Desk, line: Line) -> Result<Line, Refusal> {
        Ok(match self {
            Self::F32OfU32(n) => line.with(float::f32_of_u32(n)),
            Self::F64OfU64(n) => line.with(float::f64_of_u64(n)),
            Self::U32OfF32(x) => line.with(float::u32_of_f32(x)),
            Self::U64OfF64(x) => line.with(float::u64_of_f64(x)),
            Self::MaxF32(x, y) => line.with(float::max_f32(x, y)),
            Self::ClampF32(x, low, high) => line.with(float::clamp_f32(x, low, high)),
            Self::AbsF32(x) => line.with(float::abs_f32(x)),
            Self::AsSecsF64(nanos) => line.with(duration::as_secs_f64(nanos)),
            Self::FromSecsF64(seconds) => line.with(duration::from_secs_f64(seconds)),
            Self::WrappingMul(x, y) => line.with(wrapping_mul(x, y)),
        })
    }
}
