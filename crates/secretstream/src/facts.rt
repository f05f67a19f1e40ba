//! Facts on lists of messages, from any state on: a sender and a receiver stay in step, and the first wrong message is
//! refused.

ghost use Rattle.std.specs.Prelude.{◌≡◌, ◌<◌, ◌≤◌, ◌∷◌, ◌++◌, ◌^◌, ◌+◌, ℕ, List, All, length, take};
ghost use Rattle.secretstream.specs.Stream.{State, IsMessage};
ghost use Rattle.secretstream.specs.StateBytes.{state_of};
ghost use Rattle.secretstream.specs.Lists.{Item, Coming, sent, after_all, Taken, IsComplete, EndsOnce};

// `Taken` says of a list what the clauses `accepted`, `message` and `next` of `pull` say of one message.
fn lists()
    // What was sent is taken, for what it was made from.
    ensures sent { (s : State) (ms : List Item)
        → All (λ (m : Item). 128 + length m.text ≤ 2 ^ 38) ms → Taken s (sent s ms) ms }
    // What is taken is what a sender in this state sends. It determines the list.
    ensures taken { (s : State) (cs : List Coming) (ms : List Item)
        → Taken s cs ms → cs ≡ sent s ms }
    ensures same { (s : State) (cs : List Coming) (ms ns : List Item)
        → Taken s cs ms → Taken s cs ns → ms ≡ ns }
    // After what was sent, bytes that aren't the next message are refused, whatever follows them.
    ensures refused { (s : State) (ms : List Item) (wrong : Coming) (rest : List Coming)
        (ns : List Item) → ¬ IsMessage (after_all s ms) wrong.aad wrong.bytes
        → ¬ Taken s (sent s ms ++ wrong ∷ rest) ns }
    // If the last message alone has `Final`, a stream that was cut isn't complete.
    ensures cut { (s : State) (ms : List Item) (k : ℕ) (ns : List Item)
        → EndsOnce ms → Taken s (take k (sent s ms)) ns → IsComplete ns → ns ≡ ms }
{}

// Stored states: each has 44 bytes, and no others.
fn stored()
    ensures some { (s : State) → length s.key ≡ 32 → s.counter < 2 ^ 32 → length s.inner ≡ 8
        → (bytes : List ℕ) × (length bytes ≡ 44) × (state_of bytes ≡ s) }
    ensures one { (a b : List ℕ) → length a ≡ 44 → length b ≡ 44
        → All (λ (x : ℕ). x < 256) a → All (λ (x : ℕ). x < 256) b → state_of a ≡ state_of b → a ≡ b }
{}
