//! The bundles of the tests.

use std::alloc::{AllocError, Global};

/// A buyer and a seller, and a rule that is added live.
pub const BUYER_SELLER: &[u8] = br#"aioc {
  n@buyer = 0;
  while n < 2 @buyer {
    ask: buyer(n) -> seller(item);
    scope @seller {
      price@seller = 100;
      quote: seller(price) -> buyer(p)
    } prop { N.name = "offer" };
    n@buyer = n + 1
  }
}
env { season = "sale"; }
script { after 6 add rule cheap {
  on { N.name == "offer" and E.season == "sale" }
  do { price@seller = 80; quote: seller(price) -> buyer(p) } } }
"#;

/// What `step` prints of them.
pub const BUYER_SELLER_TRACE: &[u8] = br#"set n@buyer #0.0 = 0
pick buyer #0.1 true
put buyer -> seller ask#0.2 = 0
take buyer -> seller ask#0.2 item
scope seller #0.3 keep
set price@seller #0.4 = 100
add cheap
put seller -> buyer quote#0.5 = 100
take seller -> buyer quote#0.5 p
set n@buyer #0.6 = 1
pick buyer #0.1 true
put buyer -> seller ask#0.2 = 1
take buyer -> seller ask#0.2 item
scope seller #0.3 rule cheap as 1
set price@seller #1.0 = 80
put seller -> buyer quote#1.1 = 80
take seller -> buyer quote#1.1 p
set n@buyer #0.6 = 2
pick buyer #0.1 false
ended 41
"#;

/// The two with the trace of their run.
pub fn played(alloc: Global) -> Result<Vec<u8>, AllocError> {
    let mut text = BUYER_SELLER.to_vec(alloc)?;
    text.extend_from_slice(b"trace {\n")?;
    text.extend_from_slice(BUYER_SELLER_TRACE)?;
    text.extend_from_slice(b"}\n")?;
    Ok(text)
}

/// Each form of the language, with rules, environment, inputs and changes.
pub const EVERY_FORM: &[u8] = br#"version 2
aioc {
  x@a = input();
  (ask: a(x + 1) -> b(y) | tell: a("t") -> c(z));
  over: a(x) -> b(y);
  if y > 0 @b { o: b(y) -> c(z) } else { skip };
  back: b(y) -> a(w);
  while x > 0 @a {
    scope @a { p: a(x) -> b(y) } roles { c } prop { N.k = 1 };
    x@a = x - 1
  }
}
rules {
  rule r priority 2 {
    on { N.k == 1 and E.k == "s" }
    do { p: a(x) -> b(y); q: a(nil) -> c(z) }
  }
}
env { k = "s"; }
inputs { a: 2, true; }
script {
  after 2 drop r
  after 3 env k = nil
  after 18 add rule r { on { x >= 1 } do { p: a(-x) -> b(y) } }
}
"#;

/// A choreography whose sequences aren't linked.
pub const DRAFT: &[u8] = br#"aioc {
  o: a(1) -> b(x);
  p: c(2) -> d(y);
  if x == 1 @b { q: b(1) -> c(z) } else { skip }
}
"#;

/// A run that stopped after two entries.
pub const STOPPED: &[u8] = br#"aioc { hi: a(1) -> b(x); yo: b(2) -> a(y) }
trace {
put a -> b hi#0.0 = 1
take a -> b hi#0.0 x
stopped 2
}
"#;

/// A run in which each of two roles leads a scope that a rule replaces, with all its entries.
pub const JUDGED: &[u8] = br#"aioc { scope @a { o: a(1) -> b(x) }; scope @b { p: b(2) -> a(y) } }
rules { rule r { on { true } do { q: a(3) -> b(x) } } }
trace {
scope a #0.0 rule r as 1
put a -> b !begin#0.0 = part 1
put a -> b q#1.0 = 3
take a -> b !begin#0.0
take a -> b q#1.0 x
put b -> a !end#0.0 = done
take b -> a !end#0.0
put a -> b !out#0.0 = done
take a -> b !out#0.0
scope b #0.2 rule r as 2
put b -> a !begin#0.2 = part 2
take b -> a !begin#0.2
put a -> b q#2.0 = 3
put a -> b !end#0.2 = done
take a -> b q#2.0 x
take a -> b !end#0.2
put b -> a !out#0.2 = done
take b -> a !out#0.2
ended 18
}
"#;
