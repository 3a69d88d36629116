//! Rows that outlets share: most clients of a route server are due the same.

ghost use Rattle.std.specs.Prelude.{◌≡◌};

use crate::outlet::Outlet;

impl Outlet {
    /// Whether the blocks that the last turn wrote are better shared later: it wrote few rows of each of many, and the next
    /// turns may well write the same blocks.
    pub fn puts_off_sharing(&mut self) -> bool
        ensures { self.new ≡ self.old }
    {
        self.rows.puts_off()
    }

    /// Where another outlet has the same rows in a block that turns wrote, both have one copy of it. It takes no memory.
    pub fn adopt(&mut self, other: &Outlet)
        ensures { self.new ≡ self.old }
    {
        self.rows.adopt(&other.rows);
    }

    /// The blocks that turns wrote can be shared with other outlets. Where memory for that is refused, they are this
    /// outlet's own still.
    pub fn settle(&mut self)
        ensures { self.new ≡ self.old }
    {
        self.rows.settle();
    }
}
