ghost use Rattle.std.specs.Prelude.{◌≡◌, ◌<◌, ◌≤◌, ◌++◌, ◌∷◌, ◌+◌, ◌-◌, [], length, take, get_or, IfSome, IsNone, IfOk, OnOk, OnErr};
ghost use Rattle.tv_match.specs.Chained.{IsLast, NoneIn};

use std::alloc::Global;
use std::marker::Model;
use tv_value::NoMemory;

/// Items in order, each in a bucket. A contract sees the bucket of each.
///
/// Of each bucket the last item is kept, and of each item the one before it in its bucket.
#[derive(Debug, Drop)]
pub struct Chains {
    buckets: Vec<usize>,
    // Of each item one more than the one before it in its bucket, or 0.
    before: Vec<usize>,
    // Of each bucket one more than its last item, or 0.
    last: Vec<usize>,
}

impl Model for Chains {
    ghost use Rattle.std.specs.Prelude.{length};
    ghost use Rattle.tv_match.specs.Chained.{Bucketed, AreChained};

    ghost Value = { Bucketed };

    ghost view = { λ c. record { of = c.buckets.items; count = length c.last.items } };

    ghost invariant = { λ c. AreChained c.buckets.items c.before.items c.last.items };
}

impl Chains {
    /// No items, in no buckets. Takes no memory.
    pub fn new(alloc: Global) -> Chains
        ensures of { result.of ≡ [] }
        ensures count { result.count ≡ 0 }
    {
        Chains {
            buckets: Vec::new(alloc),
            before: Vec::new(alloc),
            last: Vec::new(alloc),
        }
    }

    /// The same items in the same buckets. Linear.
    pub fn copy(&self, alloc: Global) -> Result<Chains, NoMemory>
        ensures { IfOk result (λ c. c ≡ self.now) }
    {
        Ok(Chains {
            buckets: self.buckets.as_slice().to_vec(alloc)?,
            before: self.before.as_slice().to_vec(alloc)?,
            last: self.last.as_slice().to_vec(alloc)?,
        })
    }

    /// How many items there are.
    pub fn len(&self) -> usize
        ensures { result ≡ length self.now.of }
    {
        self.buckets.len()
    }

    /// How many buckets there are.
    pub fn count(&self) -> usize
        ensures { result ≡ self.now.count }
    {
        self.last.len()
    }

    /// The last item of a bucket. Takes no memory, and constant time.
    pub fn last(&self, bucket: usize) -> Option<usize>
        requires { bucket < self.now.count }
        ensures some { IfSome result (IsLast self.now.of bucket (length self.now.of)) }
        ensures none { IsNone result → NoneIn self.now.of bucket (length self.now.of) }
    {
        self.last[bucket].checked_sub(1)
    }

    /// The item before this one in its bucket. Takes no memory, and constant time.
    pub fn before(&self, at: usize) -> Option<usize>
        requires { at < length self.now.of }
        ensures some { IfSome result (IsLast self.now.of (get_or self.now.of at 0) at) }
        ensures none { IsNone result → NoneIn self.now.of (get_or self.now.of at 0) at }
    {
        self.before[at].checked_sub(1)
    }

    /// One more bucket, which has nothing.
    pub fn open(&mut self) -> Result<(), NoMemory>
        requires { NoneIn self.old.of self.old.count (length self.old.of) }
        ensures of { self.new.of ≡ self.old.of }
        ensures ok { OnOk result (self.new.count ≡ self.old.count + 1) }
        ensures err { OnErr result (self.new.count ≡ self.old.count) }
    {
        match self.last.push(0) {
            Ok(()) => Ok(()),
            Err(_full) => Err(NoMemory),
        }
    }

    /// One more item at the end, in this bucket. Constant time.
    pub fn push(&mut self, bucket: usize) -> Result<(), NoMemory>
        requires { bucket < self.old.count }
        ensures ok { OnOk result (self.new.of ≡ self.old.of ++ bucket ∷ []) }
        ensures err { OnErr result (self.new.of ≡ self.old.of) }
        ensures count { self.new.count ≡ self.old.count }
    {
        let before = self.last[bucket];
        match self.buckets.push(bucket) {
            Ok(()) => match self.before.push(before) {
                Ok(()) => {
                    self.last[bucket] = self.buckets.len();
                    Ok(())
                }
                Err(_full) => {
                    self.buckets.truncate(self.before.len());
                    Err(NoMemory)
                }
            },
            Err(_full) => Err(NoMemory),
        }
    }

    /// Takes the last item away, if there is one. Takes no memory, and constant time.
    pub fn pop(&mut self)
        ensures of { self.new.of ≡ take (length self.old.of - 1) self.old.of }
        ensures count { self.new.count ≡ self.old.count }
    {
        let count = self.buckets.len();
        if count > 0 {
            let bucket = self.buckets[count - 1];
            self.last[bucket] = self.before[count - 1];
            self.buckets.truncate(count - 1);
            self.before.truncate(count - 1);
        }
    }
}

/// Keeps the first items alone. Takes no memory. Linear in what goes.
pub fn keep_first(chains: &mut Chains, count: usize)
    ensures of { chains.new.of ≡ take count chains.old.of }
    ensures count { chains.new.count ≡ chains.old.count }
{
    while chains.len() > count {
        chains.pop();
    }
}
