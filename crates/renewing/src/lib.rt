// Renewing: the records that a new letter touches get what fresh joining gives, by walks outward from its place to the second letter on each side,
// and over the runs of selectors there.
#![tactic(auto)]

ghost use Rattle.std.specs.Prelude.{◌≡◌, cond, ◌+◌, ◌<◌, ◌≤◌, ltb, length, get_or, take, drop};
ghost use Rattle.shapes.specs.Joining.{passed, latest, nearest};
ghost use Rattle.selectors.specs.Selectors.{run, base as base_of};
ghost use Rattle.joining.specs.Known.{known_types};
ghost use Rattle.lines.specs.Held.{line_mut_now, line_mut_lent};
ghost use Rattle.lines.specs.Joined.{actions_between};
ghost use Rattle.renewing.specs.Renewed.{reached, touched, renewed, span, mask_at, renewed_line};
ghost use Rattle.renewing.specs.Renewable.{Renewable, Beside};
ghost use Rattle.renewing.specs.Held.{held_now, held_lent};

mod held;

use held::Held;
use joining::KnownLetters;
use letters::{Action, JoiningType};
use lines::Frame;

// The records from `k` to before `end` get an action, and their masks by it.
fn put(
    base: &[u32],
    features: &[u32; 7],
    k: usize,
    end: usize,
    action: Action,
    actions: &mut [u8],
    masks: &mut [u32],
)
    requires in_bounds { (k ≤ end) × (end ≤ length base.now) }
    requires actions_len { (length actions.old ≡ length base.now) × (length masks.old ≡ length base.now) }
    ensures actions { actions.new ≡ renewed (span k end) (λ j. action.0) actions.old }
    ensures masks { masks.new ≡ renewed (span k end) (mask_at features.now base.now action.0) masks.old }
{
    for i in k..end {
        actions[i] = action.0;
        masks[i] = masks::mask_of(features, base[i], action);
    }
}

// The letter that is seen past a letter `t`: `far` if it is transparent.
fn past(far: JoiningType, t: JoiningType) -> JoiningType
    ensures { result.0 ≡ passed far.0 t.0 }
{
    if t == JoiningType::T { far } else { t }
}

impl Held<'_> {
    // Where the record stands whose action the one at `k` has. In a Mongolian line a selector has that of a record before it.
    fn home(&self, k: usize) -> usize
        requires { k < length self.now.codes.now }
        ensures { let held = self.entry.now in
            result ≡ cond held.frame.mongolian (base_of held.codes.now k) k }
    {
        if self.frame.mongolian {
            selectors::base_of(self.codes, k)
        } else {
            k
        }
    }

    // Where the run of selectors directly behind the record at `k` ends, which only a Mongolian line has.
    fn reach_end(&self, k: usize) -> usize
        requires { k < length self.now.codes.now }
        ensures { let held = self.entry.now in
            result ≡ k + 1 + cond held.frame.mongolian (run (drop (k + 1) held.codes.now)) 0 }
    {
        if self.frame.mongolian {
            selectors::run_end(self.codes, k + 1)
        } else {
            k + 1
        }
    }

    // The action that fresh joining gives the record at `k`, which stands between the letters `p` and `n`. A selector's home stands between others.
    fn fresh_action(&self, k: usize, p: JoiningType, n: JoiningType) -> Action
        requires codes_len { (length self.now.codes.now ≡ length self.now.letters.types.now) × (k < length self.now.letters.types.now) }
        requires beside { Beside self.now.frame (known_types self.now.letters) k p.0 n.0 }
        ensures { let held = self.entry.now in
            let f = held.frame in
            result.0 ≡ get_or (actions_between f.mongolian held.codes.now f.before.0 (known_types held.letters) f.behind.0) k 0 }
    {
        let at = self.home(k);
        let t = self.letters.type_at(at);
        if at == k {
            return shapes::form_of(p, t, n);
        }
        let q = neighbours::letter_before(self.letters, at, self.frame.before);
        let m = neighbours::letter_from(self.letters, at + 1, self.frame.behind);
        shapes::form_of(q.letter, t, m.letter)
    }

    // The record at `k`, which stands between the letters `p` and `n`, and the run of selectors directly behind it get what fresh joining gives. Where there
    // is no such record, nothing does.
    fn renew(&self, k: usize, p: JoiningType, n: JoiningType, actions: &mut [u8], masks: &mut [u32])
        requires renewable { Renewable self.now.frame (held_now self.now actions masks) }
        requires beside { k < length self.now.letters.types.now → Beside self.now.frame (known_types self.now.letters) k p.0 n.0 }
        ensures { let held = self.entry.now in
            let l = held_lent held actions masks in
            l.exit ≡ renewed_line held.frame (reached held.frame.mongolian l.entry.codes k) l.entry }
    {
        if k < self.letters.types.len() {
            let action = self.fresh_action(k, p, n);
            let end = self.reach_end(k);
            put(
                self.base,
                &self.frame.features,
                k,
                end,
                action,
                actions,
                masks,
            );
        }
    }

    // The nearest letter before the record at `k`; where there is no such record, the one before the line, and nothing is walked.
    fn further_before(&self, k: usize) -> JoiningType
        ensures { let held = self.entry.now in
            let b = held.frame.before.0 in
            result.0 ≡ cond (ltb k (length held.letters.types.now)) (latest b (take k (known_types held.letters))) b }
    {
        let before = self.frame.before;
        if k < self.letters.types.len() {
            return neighbours::letter_before(self.letters, k, before).letter;
        }
        before
    }

    // The nearest letter behind the record at `k`; where there is no such record, the one behind the line.
    fn further_behind(&self, k: usize) -> JoiningType
        ensures { let held = self.entry.now in
            let a = held.frame.behind.0 in
            result.0 ≡ cond (ltb k (length held.letters.types.now)) (nearest (drop (k + 1) (known_types held.letters)) a) a }
    {
        let behind = self.frame.behind;
        if k < self.letters.types.len() {
            return neighbours::letter_from(self.letters, k + 1, behind).letter;
        }
        behind
    }

    // The letter at `k` is new: it, the letters beside it and the runs of selectors behind them get what fresh joining gives.
    fn refresh(&self, k: usize, actions: &mut [u8], masks: &mut [u32])
        requires renewable { Renewable self.now.frame (held_now self.now actions masks) }
        requires k_in_bounds { k < length self.now.letters.types.now }
        ensures { let held = self.entry.now in
            let l = held_lent held actions masks in
            l.exit ≡ renewed_line held.frame (touched held.frame l.entry k) l.entry }
    {
        let t = self.letters.type_at(k);
        let q = neighbours::letter_before(self.letters, k, self.frame.before);
        let n = neighbours::letter_from(self.letters, k + 1, self.frame.behind);
        let back = self.further_before(q.place);
        let ahead = self.further_behind(n.place);
        // past the new letter, if it is transparent, the letters beside it see each other
        let seen_back = past(q.letter, t);
        let seen_ahead = past(n.letter, t);
        self.renew(n.place, seen_back, ahead, actions, masks);
        self.renew(q.place, back, seen_ahead, actions, masks);
        self.renew(k, q.letter, n.letter, actions, masks);
    }
}

// The same of a line that is lent by its columns. A held line is made here, where its columns are lent for one time: its codes and letters may have
// been lent to be written before.
pub fn refresh<'a>(
    codes: &'a [u32],
    types: &'a [u8],
    categories: &'a [u8],
    base: &'a [u32],
    frame: Frame,
    k: usize,
    actions: &mut [u8],
    masks: &mut [u32],
)
    requires renewable { Renewable frame (line_mut_now codes types categories base actions masks) }
    requires k_in_bounds { k < length types.now }
    ensures { let l = line_mut_lent codes types categories base actions masks in
        l.exit ≡ renewed_line frame (touched frame l.entry k) l.entry }
{
    let letters = KnownLetters { types, categories };
    let held = Held {
        codes,
        letters,
        base,
        frame,
    };
    held.refresh(k, actions, masks);
}
