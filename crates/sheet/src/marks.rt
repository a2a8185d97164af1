// Which zones are struck.
ghost use Rattle.std.specs.Prelude.{◌≡◌, true, false, replicate, slice_index_or, slice_set};

// One mark for each of 512 zones, in an array since there is no heap: whether it is struck. Further zones have none. To mark and
// to unmark are two calls, as the users ask for them.
#[derive(Clone, Copy)]
pub(crate) struct Marks {
    pub(crate) struck: [bool; 512],
}

impl Marks {
    // No zone is struck.
    pub(crate) fn none() -> Marks
        ensures { result.struck ≡ replicate 512 false }
    {
        Marks {
            struck: [false; 512],
        }
    }

    pub(crate) fn mark(&mut self, zone: usize)
        ensures { self.new.struck ≡ slice_set self.old.struck zone true }
    {
        if zone < self.struck.len() {
            self.struck[zone] = true;
        }
    }

    pub(crate) fn unmark(&mut self, zone: usize)
        ensures { self.new.struck ≡ slice_set self.old.struck zone false }
    {
        if zone < self.struck.len() {
            self.struck[zone] = false;
        }
    }

    pub(crate) fn is_struck(&self, zone: usize) -> bool
        ensures { result ≡ slice_index_or self.now.struck zone false }
    {
        self.struck.get(zone).copied().unwrap_or(false)
    }
}
