// What a host in another language links: the functions of `hosted` under their names in C. Each promises what `hosted` promises.
#![tactic(auto)]

ghost use Rattle.hosted.specs.Hosted.{TotalOf, LastOf, UpstreamAsked, OrdersOf, PowersOf};

// Loads a design file so many times, and gives the total that is held then; 0 where the file is refused.
#[unsafe(no_mangle)]
pub extern "C" fn boddivarn_load(file: &[u8], times: u32) -> u64
    ensures { LastOf (TotalOf file.now) times result }
{
    hosted::boddivarn_load(file, times)
}

// Loads a design file once and asks so many times for the parts upstream of one; gives their set, 0 where that is refused.
#[unsafe(no_mangle)]
pub extern "C" fn boddivarn_upstream(file: &[u8], part: usize, times: u32) -> u64
    ensures { UpstreamAsked file.now part times result }
{
    hosted::boddivarn_upstream(file, part, times)
}

// Loads a design file and makes a stream of orders on it; gives the total that is held then.
#[unsafe(no_mangle)]
pub extern "C" fn boddivarn_orders(file: &[u8], orders: &[u8]) -> u64
    ensures { OrdersOf file.now orders.now result }
{
    hosted::boddivarn_orders(file, orders)
}

// Advice on the network that a sheet holds, laid as `hosted` says. Nothing is promised of it.
#[unsafe(no_mangle)]
pub extern "C" fn boddivarn_advise(
    net: &[u32; 2048],
    loads: &mut [u32; 448],
    hint: &mut [u32; 130],
) {
    hosted::boddivarn_advise(net, loads, hint);
}

// Loads a design file once, solves its board so many times by the main loop, and gives the total.
#[unsafe(no_mangle)]
pub extern "C" fn boddivarn_by_loop(file: &[u8], times: u32) -> u64
    ensures { LastOf (TotalOf file.now) times result }
{
    hosted::boddivarn_by_loop(file, times)
}

// What advice for the next order begins with, after a design file and a stream of orders. Nothing is promised of it.
#[unsafe(no_mangle)]
pub extern "C" fn boddivarn_known(
    file: &[u8],
    orders: &[u8],
    loads: &mut [u32; 448],
    times: &mut [u32; 130],
) {
    hosted::boddivarn_known(file, orders, loads, times);
}

// Loads a design file and adds up the powers of a part at so many delays from 0 on.
#[unsafe(no_mangle)]
pub extern "C" fn boddivarn_powers(file: &[u8], part: usize, delays: u32) -> u64
    ensures { PowersOf file.now part delays result }
{
    hosted::boddivarn_powers(file, part, delays)
}
