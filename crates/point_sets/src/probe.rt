// Places of keys among points.
use crate::key::Key;
use crate::point::Point;
use ordered_tree::Probe;

/// The points whose keys are below a key.
#[derive(Drop)]
pub struct Below<'a> {
    pub key: &'a Key,
}

impl<'a> Probe<Point> for Below<'a> {
    ghost use Rattle.std.specs.Ordering.{is_lt};
    ghost use Rattle.vtl_values.specs.Order.{key_cmp};

    ghost test = { λ below point. is_lt (key_cmp point.key below.key.now) };

    fn is_below(&self, point: &Point) -> bool {
        point.key.cmp(self.key).is_lt()
    }
}

/// The points whose keys are not above a key.
#[derive(Drop)]
pub struct UpTo<'a> {
    pub key: &'a Key,
}

impl<'a> Probe<Point> for UpTo<'a> {
    ghost use Rattle.std.specs.Ordering.{is_le};
    ghost use Rattle.vtl_values.specs.Order.{key_cmp};

    ghost test = { λ up_to point. is_le (key_cmp point.key up_to.key.now) };

    fn is_below(&self, point: &Point) -> bool {
        point.key.cmp(self.key).is_le()
    }
}
