ghost use Rattle.std.specs.Prelude.{◌≡◌, ℕ, IsTrue};
ghost use Rattle.vc_dtdisc.specs.Rules.{Gone};
ghost use Rattle.vc_dtdisc.specs.Shapes.{BuiltInKind, is_shape, rules_of};
ghost use Rattle.vc_dtdisc.specs.ShapeLaws.{rules-lawful};

use crate::bytes::{compare_folded, front, hash_bytes, hash_folded, rest, text};
use crate::{DictDisc, Shape};
use std::cmp::Ordering;
use std::marker::Model;
use vc_base::{OutOfMemory, Steps, one_more};

/// A kind of one of the six shapes, which counts of how many objects and bytes it was told that they go; each number
/// stays at the greatest u64 once there. This project's own.
#[derive(Debug, Drop)]
pub struct BuiltIn {
    shape: Shape,
    objects: u64,
    bytes: u64,
    // A clip has at least one byte.
    ghost legal: { IsTrue (is_shape shape) },
}

impl Model for BuiltIn {
    ghost use Rattle.vc_dtdisc.specs.Rules.{Gone};
    ghost use Rattle.vc_dtdisc.specs.Shapes.{BuiltInKind};

    ghost Value = { BuiltInKind };

    ghost view = { λ s. record {
      shape = s.shape;
      legal = s.legal;
      gone = record { objects = s.objects; bytes = s.bytes };
    } };
}

impl BuiltIn {
    /// A kind of that shape that was told of nothing. A clip has at least one byte; any other size or offset serves. It
    /// can't fail.
    pub fn new(shape: Shape) -> BuiltIn
        requires { IsTrue (is_shape shape) }
        ensures shape { result.shape ≡ shape }
        ensures gone { result.gone ≡ record { objects = 0; bytes = 0 } }
    {
        BuiltIn {
            shape,
            objects: 0,
            bytes: 0,
        }
    }
}

impl DictDisc for BuiltIn {
    ghost rules = { λ s. rules_of s.shape };

    ghost gone = { λ s. s.gone };

    ghost lawful = { rules-lawful };

    fn key<'a>(&self, obj: &'a [u8]) -> &'a [u8] {
        match self.shape {
            Shape::Whole | Shape::Fold | Shape::Reverse => obj,
            Shape::Field { off, size } => front(rest(obj, off), size),
            Shape::Text { off } => text(rest(obj, off)),
            Shape::Clip { n } => front(obj, n),
        }
    }

    fn compare<L>(&self, a: &[u8], b: &[u8], steps: &mut Steps<L>) -> Ordering {
        steps.tick();
        match self.shape {
            Shape::Whole | Shape::Field { .. } | Shape::Text { .. } | Shape::Clip { .. } => a.cmp(
                &b,
            ),
            Shape::Fold => compare_folded(a, b),
            Shape::Reverse => b.cmp(&a),
        }
    }

    fn hash(&self, key: &[u8]) -> u64 {
        match self.shape {
            Shape::Fold => hash_folded(key),
            _ => hash_bytes(key),
        }
    }

    fn make(&self, obj: &[u8], out: &mut Vec<u8>) -> Result<(), OutOfMemory> {
        match self.shape {
            Shape::Clip { n } => out.extend_from_slice(front(obj, n))?,
            _ => out.extend_from_slice(obj)?,
        }
        Ok(())
    }

    fn freed(&mut self, obj: &[u8]) {
        self.objects = one_more(self.objects);
        self.bytes = self.bytes.saturating_add(obj.len() as u64);
    }
}
