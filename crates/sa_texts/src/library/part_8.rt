//! Part 9 of the files of lib/.

/// The texts of this part, each behind the words that ask for it.
pub(crate) const FILES_8: [(&str, &str, &str, &str); 3] = [
    ("map", "map.sa", "map.sa", MAP),
    ("queue", "queue.sa", "queue.sa", QUEUE),
    ("rnd", "rnd.sa", "rnd.sa", RND),
];

const MAP: &str =
    r#"-- MAP and SET: a map and a set by the names that Sather 1.1 has for what they do. They include FMAP and FSET, have all that these have, and
-- take tuples as keys too. fmap.sa and tup.sa stand beside this file.
--
--    ages ::= #MAP{STR, INT};
--    ages["Ann"] := 31; ages["Bob"] := 45;
--    loop pair ::= ages.pair!; #OUT + pair.t1 + " is " + pair.t2 + ", "; end;                   -- Ann is 31, Bob is 45,
--    loop #OUT + ages.ind! + " "; end; loop #OUT + ages.elt! + " "; end;                        -- Ann Bob 31 45
--    seen ::= #SET{TUP{INT, INT}}; here ::= #TUP{INT, INT}(3, 4);
--    seen.insert(here); #OUT + seen.has(#TUP{INT, INT}(3, 4)) + seen + "\n";                    -- true{(3, 4)}
abstract class $MAP_KEY > $HASH, $TUP is hash:INT; end;

class MAP_HASHES is
   include HASHES;

   -- The hash of a key of a class below $HASH, or of a tuple.
   of(key:$MAP_KEY):INT post result >= 0 is return key.hash.band(0x7fffffff); end;
end;

class MAP{K, V} is
   include FMAP{K, V} create->;

   private hash_of(key:K):INT is return MAP_HASHES::of(key); end;

   -- A map without keys, and one of the pairs of an array, of which a later one takes the place of an earlier one with its key.
   create:SAME post result.size = 0 is map ::= new; map.clear; return map; end;
   create(pairs:ARRAY{TUP{K, V}}):SAME is
      map ::= #SAME;
      loop map.insert_pair(pairs.elt!); end;
      return map;
   end;

   -- Puts the second value of a pair at the first one.
   insert_pair(pair:TUP{K, V}) is [pair.t1] := pair.t2; end;

   -- The keys, and what stands there, each by the name of older code.
   ind!:K is loop yield keys!; end; end;
   elt!:V is loop yield elts!; end; end;

   -- The keys with what stands there, as pairs that are made each time; by two names.
   pair!:TUP{K, V} is elt:V; loop key ::= pairs!(out elt); yield #TUP{K, V}(key, elt); end; end;
   pairs!:TUP{K, V} is elt:V; loop key ::= pairs!(out elt); yield #TUP{K, V}(key, elt); end; end;

   -- The keys, and what stands there, as arrays of their own.
   inds:ARRAY{K} post result.asize = size is
      keys ::= #ARRAY{K}(size);
      loop keys.set!(keys!); end;
      return keys;
   end;
   elts:ARRAY{V} post result.asize = size is
      elts ::= #ARRAY{V}(size);
      loop elts.set!(elts!); end;
      return elts;
   end;
end;

class SET{T} < $STR is
   include FSET{T} create->;

   private attr map:MAP{T, BOOL};

   -- A set of nothing, and one of the elements of an array.
   create:SAME is set ::= new; set.map := #MAP{T, BOOL}; return set; end;
   create(elts:ARRAY{T}):SAME is
      set ::= #SAME;
      loop set.insert(elts.elt!); end;
      return set;
   end;

   -- Takes all elements out.
   clear is map.clear; end;

   -- The elements, as an array of its own.
   array:ARRAY{T} is return map.inds; end;

   -- What is in this set alone, and what is in one of the two alone; each is a set of its own, and has two names.
   diff(other:SAME):SAME is return difference(other); end;
   sym_difference(other:SAME):SAME is return difference(other).union(other.difference(self)); end;
   sym_diff(other:SAME):SAME is return sym_difference(other); end;

   -- Makes this set what is in one of the two, in both, in this one alone, and in one alone.
   to_union(other:SAME) is loop insert(other.elt!); end; end;
   to_intersection(other:SAME) is loop elt ::= elt!; if ~other.has(elt) then delete(elt); end; end; end;
   to_difference(other:SAME) is loop elt ::= elt!; if other.has(elt) then delete(elt); end; end; end;
   to_diff(other:SAME) is to_difference(other); end;
   to_sym_difference(other:SAME) is
      added ::= other.difference(self);
      to_difference(other);
      to_union(added);
   end;
   to_sym_diff(other:SAME) is to_sym_difference(other); end;

   -- Whether each element is in the other set, whether one is in both, and whether none is.
   is_subset_of(other:SAME):BOOL is return is_subset(other); end;
   intersects(other:SAME):BOOL is
      loop if other.has(elt!) then return true; end; end;
      return false;
   end;
   is_disjoint_from(other:SAME):BOOL is return ~intersects(other); end;

   -- Whether the two sets have the same elements.
   equals(other:SAME):BOOL is return self = other; end;

   -- The texts of the elements, between braces; `_` of one that has none.
   str:STR is
      text ::= "{";
      loop
         elt:$OB := elt!;
         if text.size > 1 then text := text + ", "; end;
         typecase elt when $STR then text := text + elt; else text := text + "_"; end;
      end;
      return text + "}";
   end;
end;
"#;

const QUEUE: &str =
    r#"-- STACK, QUEUE and PRIORITY_QUEUE: what is put in comes out last in, first out; first in, first out; or the least first, by `<`. They
-- grow as they must.
--
--    stack ::= #STACK{INT}; loop stack.push(1.upto!(3)); end; #OUT + stack.pop + stack.top + stack.size + "\n";      -- 322
--    queue ::= #QUEUE{STR}; queue.enqueue("a"); queue.enqueue("b"); #OUT + queue.dequeue + queue.first + "\n";      -- ab
--    urgent ::= #PRIORITY_QUEUE{INT};
--    loop urgent.insert("hello".elt!.int); end;
--    loop until!(urgent.is_empty); #OUT + urgent.pop.char; end;                                                     -- ehllo
class STACK{T} is
   private attr elts:FLIST{T};

   -- A stack of nothing.
   create:SAME is stack ::= new; stack.elts := #FLIST{T}; return stack; end;

   -- How many elements it has, and whether it has none.
   size:INT post result = elts.size is return elts.size; end;
   is_empty:BOOL post result = (elts.size = 0) is return elts.size = 0; end;

   -- Puts an element on top. With a result it gives the stack itself.
   push(elt:T) post elts.size = initial(elts.size) + 1 is elts.push(elt); end;
   push(elt:T):SAME post elts.size = initial(elts.size) + 1 is elts.push(elt); return self; end;

   -- Takes the top element off, and gives it.
   pop:T pre elts.size > 0 post elts.size = initial(elts.size) - 1 is return elts.pop; end;

   -- The top element, which stays.
   top:T pre elts.size > 0 is return elts[elts.size - 1]; end;

   -- The elements from the top down.
   elt!:T is loop yield elts[(elts.size - 1).downto!(0)]; end; end;
end;

-- The elements stand in a ring, from `start` on.
class QUEUE{T} is
   private attr ring:ARRAY{T};
   private attr start:INT;

   -- How many elements it has.
   readonly attr size:INT;

   invariant:BOOL is return size >= 0 and size <= ring.asize and start >= 0 and start < ring.asize; end;

   -- A queue of nothing.
   create:SAME post result.size = 0 is queue ::= new; queue.ring := #ARRAY{T}(8); return queue; end;

   -- Whether it has no elements.
   is_empty:BOOL post result = (size = 0) is return size = 0; end;

   -- Puts an element behind the others, by two names.
   enqueue(elt:T) post size = initial(size) + 1 is
      if size = ring.size then grow; end;
      ring[(start + size) % ring.size] := elt;
      size := size + 1;
   end;
   enq(elt:T) post size = initial(size) + 1 is enqueue(elt); end;

   -- Takes the first element out, and gives it, by two names.
   dequeue:T pre size > 0 post size = initial(size) - 1 is
      elt ::= ring[start];
      start := (start + 1) % ring.size;
      size := size - 1;
      return elt;
   end;
   deq:T pre size > 0 post size = initial(size) - 1 is return dequeue; end;

   -- The first element, which stays.
   first:T pre size > 0 is return ring[start]; end;

   -- The elements from the first on.
   elt!:T is
      place ::= 0;
      loop while!(place < size); yield ring[(start + place) % ring.size]; place := place + 1; end;
   end;

   private grow post size < ring.asize is
      wider ::= #ARRAY{T}(2 * size);
      loop wider.set!(elt!); end;
      ring := wider;
      start := 0;
   end;
end;

-- A heap: the element of the place n isn't above those of the places 2n + 1 and 2n + 2.
class PRIORITY_QUEUE{T} is
   private attr elts:FLIST{T};

   -- A queue of nothing.
   create:SAME is queue ::= new; queue.elts := #FLIST{T}; return queue; end;

   -- How many elements it has, and whether it has none.
   size:INT post result = elts.size is return elts.size; end;
   is_empty:BOOL post result = (elts.size = 0) is return elts.size = 0; end;

   -- Puts an element in.
   insert(elt:T) post elts.size = initial(elts.size) + 1 is
      elts.push(elt);
      place ::= elts.size - 1;
      loop
         while!(place > 0 and elt < elts[(place - 1) / 2]);
         elts[place] := elts[(place - 1) / 2];
         place := (place - 1) / 2;
      end;
      elts[place] := elt;
   end;

   -- An element than which none is less, which stays.
   top:T pre elts.size > 0 is return elts[0]; end;

   -- Takes an element out than which none is less, and gives it.
   pop:T pre elts.size > 0 post elts.size = initial(elts.size) - 1 is
      top ::= elts[0];
      last ::= elts.pop;
      if elts.size > 0 then sink(last); end;
      return top;
   end;

   -- Puts an element to the first place, and lets lesser ones rise past it.
   private sink(elt:T) is
      place ::= 0; child ::= 1;
      loop
         while!(child < elts.size);
         if child + 1 < elts.size and elts[child + 1] < elts[child] then child := child + 1; end;
         while!(elts[child] < elt);
         elts[place] := elts[child];
         place := child; child := 2 * place + 1;
      end;
      elts[place] := elt;
   end;
end;
"#;

const RND: &str =
    r#"-- RND: numbers that look as if they were drawn by lot. The same seed gives the same numbers, so that a program does the same each time.
-- It is the generator of Park and Miller: each number is 16807 times the one before it, modulo 2147483647, and each of 1 to
-- 2147483646 comes once before they begin anew. It is of no use where somebody gains by guessing.
-- Here are five throws of a die, one of a coin, and how to shuffle four cards.
--
--    rnd ::= #RND(2024);
--    loop 5.times!; #OUT + rnd.int(1, 6) + " "; end;                                    -- 3 1 3 2 2
--    if rnd.bool then #OUT + "heads\n"; else #OUT + "tails\n"; end;                     -- heads
--    cards:ARRAY{STR} := |"A", "K", "Q", "J"|;
--    order ::= rnd.order(4); loop #OUT + cards[order.elt!]; end;                        -- AKJQ
class RND is
   private const most:INT := 2147483646;
   private attr state:INT;

   invariant:BOOL is return state >= 1 and state <= most; end;

   -- A generator; that of the seed n begins with what comes behind n + 1.
   create(seed:INT):SAME is rnd ::= new; rnd.state := seed.band(0x7fffffff) % most + 1; return rnd; end;

   -- The next number of 1 to 2147483646. The product is made in two parts, so that neither is too large.
   next:INT post result >= 1 and result <= most is
      state := 16807 * (state % 127773) - 2836 * (state / 127773);
      if state <= 0 then state := state + 2147483647; end;
      return state;
   end;

   -- One of the n numbers from 0 on, each as likely as another: what is left above the last whole n is thrown away.
   int(n:INT):INT pre n > 0 and n <= most post result >= 0 and result < n is
      drawn ::= next - 1;
      loop while!(drawn >= most / n * n); drawn := next - 1; end;
      return drawn % n;
   end;

   -- One of the numbers from `low` to `high`, each as likely as another. There may be 2147483646 of them at most.
   int(low, high:INT):INT pre low <= high post result >= low and result <= high is return low + int(high - low + 1); end;

   -- True or false, each as likely as the other.
   bool:BOOL is return next <= most / 2; end;

   -- The n numbers from 0 on in an order drawn by lot, each order as likely as another: each place is exchanged with one not behind it.
   order(n:INT):ARRAY{INT} pre n >= 0 post result.asize = n is
      order ::= #ARRAY{INT}(n);
      loop order.set!(0.upto!(n - 1)); end;
      loop
         last ::= (n - 1).downto!(1);
         other ::= int(last + 1);
         number ::= order[last]; order[last] := order[other]; order[other] := number;
      end;
      return order;
   end;
end;
"#;
