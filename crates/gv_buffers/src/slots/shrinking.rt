//! Room that buffers in their slots give back.
ghost use Rattle.std.specs.Prelude.{◌≡◌, ℕ, length};
ghost use Rattle.gv_buffers.specs.Slots.{buffer_in};

use super::Slots;

impl Slots {
    /// Gives room back that neither a buffer needs nor an index, and that of dead buffers whose keys are above those of the live ones.
    pub fn shrink(&mut self)
        ensures { self.new ≡ self.old }
    {
        self.live.shrink_to_fit();
        self.keys.shrink_to_fit();
        self.vacant.shrink_to(self.keys.len());
    }

    /// Gives room back that no buffer needs.
    pub fn shrink_buffers(&mut self)
        ensures same { (index : ℕ) → buffer_in self.new.entries index ≡ buffer_in self.old.entries index }
        ensures length { length self.new.entries ≡ length self.old.entries }
        ensures vacant { self.new.vacant ≡ self.old.vacant }
    {
        for index in 0..self.keys.len() {
            self.shrink_at(index);
        }
    }

    /// Gives room back that the buffer at an index doesn't need, if there is one.
    fn shrink_at(&mut self, index: usize)
        ensures same { (other : ℕ) → buffer_in self.new.entries other ≡ buffer_in self.old.entries other }
        ensures length { length self.new.entries ≡ length self.old.entries }
        ensures vacant { self.new.vacant ≡ self.old.vacant }
    {
        if let Some(Some(key)) = self.keys.get(index) {
            self.live[*key].shrink();
        }
    }
}
