// Lowering: the labelled nodes go down.
ghost use Rattle.nets.specs.Steps.{Moved};
ghost use Rattle.mainloop.specs.Lowering.{Shifted};

// Kept: (d) as at `nets::Arc`: a room of 0 is no label.
fn moved(t: u32, room: u32, d: u32) -> u32
    ensures { Moved t room d result }
{
    if room == 0 { t } else { t.saturating_sub(d) }
}

// The labelled nodes, which have room, `d` earlier.
pub(crate) fn shift(time: &mut [u32; 130], room: &[u32; 130], d: u32)
    ensures { Shifted room.now d 130 time.old time.new }
{
    for v in 0..130 {
        time[v] = moved(time[v], room[v], d);
    }
}
