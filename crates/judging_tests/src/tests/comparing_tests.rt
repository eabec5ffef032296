//! Netlists are compared with models by several threads.
ghost use Rattle.std.specs.Prelude.{◌≤◌};
ghost use Rattle.ncl_blif.specs.Model.{AreModels};

use super::netlist_texts::netlist;
use ncl_base::Memory;
use ncl_blif::{Model, read_blif};
use ncl_match::{BitAnswer, Bits, CompareBit, CompareFault, Compared, Sides, compare};
use ncl_netlist::Netlist;
use ncl_shape::shape;
use std::alloc::Global;
use std::process::Abort;
use std::sync::atomic::{AtomicBool, AtomicUsize, Ordering};
use std::test::Fail;
use std::thread::{Threads, sleep};
use std::time::{Clock, Duration};

/// The AND of two bits, at three outputs.
const THREE: &str = "module m(x0,x1,y0,y1,ki,rst,z0,z1,v0,v1,w0,w1,ko);input x0,x1,y0,y1,ki,rst;\
    output z0,z1,v0,v1,w0,w1,ko;TH22N r(.A(x0),.B(c),.RST(rst),.Z(p0));\
    TH22N s(.A(x1),.B(c),.RST(rst),.Z(p1));TH22N i(.A(y0),.B(c),.RST(rst),.Z(q0));\
    TH22N j(.A(y1),.B(c),.RST(rst),.Z(q1));TH12B k(.A(p0),.B(p1),.Z(e));TH12B l(.A(q0),.B(q1),.Z(f));\
    TH22 m(.A(e),.B(f),.Z(ko));THand0 g(.A(p0),.B(q0),.C(p1),.D(q1),.Z(o));TH22 h(.A(p1),.B(q1),.Z(n));\
    TH22N t(.A(o),.B(ki),.RST(rst),.Z(z0));TH22N u(.A(n),.B(ki),.RST(rst),.Z(z1));\
    TH22N t2(.A(o),.B(ki),.RST(rst),.Z(v0));TH22N u2(.A(n),.B(ki),.RST(rst),.Z(v1));\
    TH22N t3(.A(o),.B(ki),.RST(rst),.Z(w0));TH22N u3(.A(n),.B(ki),.RST(rst),.Z(w1));\
    TH12B d(.A(z0),.B(z1),.Z(a1));TH12B d2(.A(v0),.B(v1),.Z(a2));TH12B d3(.A(w0),.B(w1),.Z(a3));\
    TH33 b(.A(a1),.B(a2),.C(a3),.Z(c));endmodule";

/// Of three outputs the first is another one than the AND at 10, the second at 01, the third at both.
const THREE_MODEL: &[u8] = b".model m
.inputs a b
.outputs a b y
.names a b y
1- 1
-1 1
";

/// Whether the least word at which the functions differ is 01, and there the second output is the first that differs.
fn differ_at_01(found: &Result<Compared, CompareFault>) -> bool {
    match found {
        Ok(Compared::Differ { word, bit }) => word.bits() == [false, true].as_slice() && *bit == 2,
        _ => false,
    }
}

/// Whether the AND and the models are found to differ so, by so many threads.
fn is_compared<R: Threads + Sync + Abort + AllocGlobal, B: CompareBit + Sync>(
    rt: &R,
    bits: &B,
    parts: u32,
) -> Result<bool, Fail>
    requires { (1 ≤ parts) × (parts ≤ 16) }
{
    let netlist = netlist(rt, rt.alloc(), THREE)?;
    let models = read_blif(rt.alloc(), THREE_MODEL)?;
    differ_by(rt, bits, &netlist, &models, parts)
}

/// Whether a netlist and models are found to differ so, by so many threads.
fn differ_by<R: Threads + Sync + Abort + AllocGlobal, B: CompareBit + Sync>(
    rt: &R,
    bits: &B,
    netlist: &Netlist,
    models: &[Model],
    parts: u32,
) -> Result<bool, Fail>
    requires parts { (1 ≤ parts) × (parts ≤ 16) }
    requires models { AreModels models.now }
{
    let pipeline = shape(rt.alloc(), netlist)?;
    let found = compare(rt, rt.alloc(), bits, &pipeline, models, 100_000, parts);
    Ok(differ_at_01(&found))
}

/// Compares the first output and the others once it has seen that one of the others, or the first, is being compared.
#[derive(Drop)]
struct Meeting<'a, C: Clock> {
    clock: &'a C,
    first: AtomicBool,
    other: AtomicBool,
    met: AtomicUsize,
}

impl<C: Clock> Meeting<'_, C> {
    /// Whether another output is begun within twenty seconds, which a machine with much else to do may need.
    fn meets(&self, own: &AtomicBool, other: &AtomicBool) -> bool {
        own.store(true, Ordering::SeqCst);
        for _ in 0..20_000u32 {
            if other.load(Ordering::SeqCst) {
                self.met.fetch_add(1, Ordering::SeqCst);
                return true;
            }
            sleep(self.clock, Duration::from_millis(1));
        }
        false
    }
}

impl<C: Clock> CompareBit for Meeting<'_, C> {
    fn compare_bit(
        &self,
        alloc: Global,
        sides: &Sides,
        limit: u32,
        bit: u32,
    ) -> Result<BitAnswer, Memory> {
        let meets = if bit == 1 {
            self.meets(&self.first, &self.other)
        } else {
            self.meets(&self.other, &self.first)
        };
        if meets {
            Bits.compare_bit(alloc, sides, limit, bit)
        } else {
            Err(Memory)
        }
    }
}

#[test]
fn two_outputs_are_compared_at_one_time(rt: HostRuntime) -> Result<(), Fail> {
    let bits = Meeting {
        clock: &rt,
        first: AtomicBool::new(false),
        other: AtomicBool::new(false),
        met: AtomicUsize::new(0),
    };
    assert!(rt; is_compared(&rt, &bits, 2)?);
    let met = bits.met.load(Ordering::SeqCst);
    assert_eq!(rt; met, 3);
    Ok(())
}

/// Compares outputs, and counts them and the most that are being compared at one time.
#[derive(Drop)]
struct Counting {
    asked: AtomicUsize,
    running: AtomicUsize,
    most: AtomicUsize,
}

impl Counting {
    fn new() -> Counting {
        Counting {
            asked: AtomicUsize::new(0),
            running: AtomicUsize::new(0),
            most: AtomicUsize::new(0),
        }
    }

    /// Counts an output that begins, and looks long enough at how many run for others to begin.
    fn begin(&self) {
        self.asked.fetch_add(1, Ordering::SeqCst);
        self.running.fetch_add(1, Ordering::SeqCst);
        for _ in 0..1_000_000u32 {
            let running = self.running.load(Ordering::SeqCst);
            if running > self.most.load(Ordering::SeqCst) {
                self.most.store(running, Ordering::SeqCst);
            }
        }
    }
}

impl CompareBit for Counting {
    fn compare_bit(
        &self,
        alloc: Global,
        sides: &Sides,
        limit: u32,
        bit: u32,
    ) -> Result<BitAnswer, Memory> {
        self.begin();
        let answer = Bits.compare_bit(alloc, sides, limit, bit);
        self.running.fetch_sub(1, Ordering::SeqCst);
        answer
    }
}

/// Each output is compared once, and no more of them at one time than there are parts.
#[test]
fn outputs_are_compared_once_by_so_many_threads(rt: HostRuntime) -> Result<(), Fail> {
    for parts in 1..=2 {
        let bits = Counting::new();
        assert!(rt; is_compared(&rt, &bits, parts)?);
        let asked = bits.asked.load(Ordering::SeqCst);
        assert_eq!(rt; asked, 3);
        let most = bits.most.load(Ordering::SeqCst);
        assert!(rt; most <= parts as usize, "{parts}");
    }
    Ok(())
}
