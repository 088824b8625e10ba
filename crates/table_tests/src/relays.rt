// An exploration of what another trait offers: keys and their equality that its functions ensure.
ghost use Rattle.std.specs.Prelude.{◌≡◌, ◌+◌, ◌%◌, Bool, nat_eq};
ghost use Rattle.explore.specs.Walks.{Steps, Decides};

use explore::exploration::explore;
use explore::walk::Walk;

// Whatever has keys and successors. That the equality of keys is equality is a clause of `start`.
trait Graph {
    type Key: Copy;

    ghost steps: { Self → Steps Self.Key };

    ghost same: { Self.Key → Self.Key → Bool };

    fn start(&self) -> Self::Key
        ensures value { result ≡ (steps self.now).first }
        ensures decides { Decides same };

    fn equal(a: Self::Key, b: Self::Key) -> bool
        ensures { result ≡ same a b };

    fn moves(&self, key: Self::Key) -> u32
        ensures { result ≡ (steps self.now).moves key };

    fn values(&self, key: Self::Key, step: u32) -> u8
        ensures { result ≡ (steps self.now).values key step };

    fn landing(&self, key: Self::Key, step: u32, value: u8) -> Self::Key
        ensures { result ≡ (steps self.now).landing key step value };
}

// A graph, walked. It is written for every graph, so that all it knows of one stands in the clauses
// of the graph's functions.
#[derive(Drop)]
struct Relay<'a, G> {
    graph: &'a G,
}

impl<'a, G: Graph> Walk for Relay<'a, G> {
    type Key = G::Key;

    ghost steps = { λ r. G.steps r.graph.now };

    ghost same = { G.same };

    fn first(&self) -> G::Key {
        self.graph.start()
    }

    fn same_key(a: G::Key, b: G::Key) -> bool {
        G::equal(a, b)
    }

    fn moves(&self, key: G::Key) -> u32 {
        self.graph.moves(key)
    }

    fn values(&self, key: G::Key, step: u32) -> u8 {
        self.graph.values(key, step)
    }

    fn landing(&self, key: G::Key, step: u32, value: u8) -> G::Key {
        self.graph.landing(key, step, value)
    }
}

// The numbers below 5, each leading to the next, and the last to 0.
#[derive(Drop)]
struct Ring;

impl Graph for Ring {
    type Key = u32;

    ghost steps = { λ r. record { first = 0; moves = λ k. 1; values = λ k m. 1; landing = λ k m v. (k % 5 + 1) % 5 } };

    ghost same = { nat_eq };

    fn start(&self) -> u32 {
        0
    }

    fn equal(a: u32, b: u32) -> bool {
        a == b
    }

    fn moves(&self, _key: u32) -> u32 {
        1
    }

    fn values(&self, _key: u32, _step: u32) -> u8 {
        1
    }

    fn landing(&self, key: u32, _step: u32, _value: u8) -> u32 {
        (key % 5 + 1) % 5
    }
}

#[test]
fn ring_through_a_relay(rt: HostRuntime) {
    let ring = Ring;
    let mut list = [99u32; 5];
    let answer = explore(&Relay { graph: &ring }, &mut list);
    assert_eq!(rt; answer, Ok(5));
    assert_eq!(rt; list, [0, 1, 2, 3, 4]);
}
