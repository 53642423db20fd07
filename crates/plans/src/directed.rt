ghost use Rattle.std.specs.Prelude.{◌≡◌, length};
ghost use Rattle.plans.specs.Inner.{Directed};

use array::Map;

// A fault map with directions that pass test 4.
#[derive(Clone, Copy)]
pub struct DirectedMap<'a> {
    pub map: Map<'a>,
    pub directions: &'a [u8; 1024],
    pub ghost directed: { Directed map.shape.rows map.shape.columns map.grid.now directions.now },
}
