// A wafer with the placement of its plan, whose links can be followed.

ghost use Rattle.std.specs.Prelude.{◌≡◌, ◌<◌, ◌≤◌};
ghost use Rattle.runs.specs.Inner.{Laid};
ghost use Rattle.follower.specs.Inner.{wafer_of};

use follower::Wafer;

// The switches of the wafer are those of its plan, and so is the placement.
#[derive(Clone, Copy)]
pub struct PlacedWafer<'a> {
    pub wafer: Wafer<'a>,
    pub places: &'a [u16; 1024],
    pub ghost laid: { Laid (wafer_of wafer) places.now },
}

impl PlacedWafer<'_> {
    ghost use Rattle.runs.specs.Run.{reached, links_reached, all_reached};

    // Whether the cell at p has a neighbour on a side and its link is found to reach it.
    fn is_reached(&self, side: usize, p: usize) -> bool
        requires { (side < 2) × (p < 1024) }
        ensures { result ≡ reached (wafer_of self.now.wafer) self.now.places.now side p 0 }
    {
        if !super::has_neighbour(self.wafer.plan.map.shape, side, p) {
            return false;
        }
        let from = usize::from(self.places[p]);
        let to = usize::from(self.places[super::neighbour(side, p)]);
        let f = follower::follow(&self.wafer, from, side as u8);
        super::arrives(to, side, f)
    }

    // How many links on a side are found to reach their neighbour.
    fn count_links(&self, side: usize) -> usize
        requires { side < 2 }
        ensures { (result ≡ links_reached (wafer_of self.now.wafer) self.now.places.now side) × (result ≤ 1024) }
    {
        let mut count = 0;
        for p in 0..1024 {
            if self.is_reached(side, p) {
                count += 1;
            }
        }
        count
    }

    // How many links on both sides are found to reach their neighbour.
    pub fn count_all(&self) -> usize
        ensures { result ≡ all_reached (wafer_of self.now.wafer) self.now.places.now }
    {
        self.count_links(0) + self.count_links(1)
    }
}
