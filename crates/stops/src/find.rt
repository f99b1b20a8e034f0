// A stop by its id.
ghost use Rattle.std.specs.Prelude.{◌≡◌, ◌<◌, true, false, length, IfSome, option_copied};
ghost use Rattle.stops.specs.Texts.{same_bytes_of};
ghost use Rattle.stops.specs.Stops.{id_of, name_of, is_it, find_stop};

use crate::Stop;
use texts::Text;

// Whether two texts are one: their `==`, by a name that contracts can give it.
pub fn same_text(held: &[u8], id: &[u8]) -> bool
    ensures { result ≡ same_bytes_of held.now id.now }
{
    held == id
}

impl Stop {
    // The bytes of its id.
    pub fn id(&self) -> &[u8]
        ensures { result.now ≡ id_of self.now }
    {
        self.id.bytes()
    }

    // The bytes of its name.
    pub fn name(&self) -> Option<&[u8]>
        ensures { option_copied result ≡ name_of self.now }
    {
        self.name.as_ref().map(Text::bytes)
    }
}

impl Stop {
    fn has_id(&self, id: &[u8]) -> bool
        ensures { result ≡ is_it false id.now self.now }
    {
        same_text(self.id(), id)
    }

    fn is_station_with(&self, id: &[u8]) -> bool
        ensures { result ≡ is_it true id.now self.now }
    {
        self.location_type == 1 && self.has_id(id)
    }
}

// The place of the first stop with the id.
pub fn find(stops: &[Stop], id: &[u8]) -> Option<usize>
    ensures value { result ≡ find_stop (is_it false id.now) stops.now 0 }
    ensures bound { IfSome result (λ i. i < length stops.now) }
{
    stops.iter().position(|stop| stop.has_id(id))
}

// The place of the first station with the id.
pub fn find_station(stops: &[Stop], id: &[u8]) -> Option<usize>
    ensures value { result ≡ find_stop (is_it true id.now) stops.now 0 }
    ensures bound { IfSome result (λ i. i < length stops.now) }
{
    stops.iter().position(|stop| stop.is_station_with(id))
}
