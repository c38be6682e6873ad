//! Part 4 of the files of lib/.

/// The texts of this part, each behind the words that ask for it.
pub(crate) const FILES_3: [(&str, &str, &str, &str); 1] = [("fmap", "fmap.sa", "fmap.sa", FMAP)];

const FMAP: &str =
    r#"-- FMAP and FSET: a map and a set, found by hash, in the order in which the keys were put in. Keys are INT, CHAR, BOOL, STR, or of a
-- class below $HASH that has `is_eq`; FMAP gives void where `get` finds no key, and raises a text where an index does.
--
--    ages ::= #FMAP{STR, INT};
--    ages["Ann"] := 31; ages["Bob"] := 45; ages["Ann"] := ages["Ann"] + 1;
--    age:INT; loop name ::= ages.pairs!(out age); #OUT + name + " is " + age + ", "; end;       -- Ann is 32, Bob is 45,
--    seen ::= #FSET{CHAR};
--    loop seen.insert("banana".elt!); end; loop #OUT + seen.elt!; end; #OUT + seen.size + "\n";   -- ban3
abstract class $HASH is hash:INT; end;

-- The hashes of keys: numbers that are equal where keys are equal, and seldom else.
class HASHES is
   private const modulus:INT := 16777213;

   -- The hash of a key, which is never below 0.
   of(key:INT):INT post result >= 0 is return key.band(0x7fffffff); end;
   of(key:CHAR):INT post result >= 0 is return key.int; end;
   of(key:BOOL):INT post result >= 0 is if key then return 1; end; return 0; end;
   of(key:STR):INT post result >= 0 is
      hash ::= 0;
      loop hash := (hash * 31 + key.elt!.int) % modulus; end;
      return hash;
   end;
   of(key:$HASH):INT post result >= 0 is return key.hash.band(0x7fffffff); end;

   -- The hash of two things, made of the hashes of each: for the `hash` of a class of one's own.
   both(a, b:INT):INT pre a >= 0 and b >= 0 post result >= 0 is return (a % modulus * 31 + b % modulus) % modulus; end;
end;

-- A key of a map with what stands there: a link of the chain of its hash, and of the row of all keys.
class FMAP_ENTRY{K, V} is
   readonly attr key:K;
   readonly attr hash:INT;
   attr elt:V;
   attr next, before, after:FMAP_ENTRY{K, V};
   create(key:K, hash:INT, elt:V):SAME is
      entry ::= new;
      entry.key := key; entry.hash := hash; entry.elt := elt;
      return entry;
   end;
end;

class FMAP{K, V} is
   private attr chains:ARRAY{FMAP_ENTRY{K, V}};
   private attr first, last:FMAP_ENTRY{K, V};

   -- How many keys there are.
   readonly attr size:INT;

   invariant:BOOL is return size >= 0 and void(first) = (size = 0) and void(last) = (size = 0) and size <= 2 * chains.asize; end;

   -- A map without keys.
   create:SAME post result.size = 0 is map ::= new; map.clear; return map; end;

   -- A map without keys. It grows as it must, so that the number isn't looked at.
   create(n:INT):SAME post result.size = 0 is return #SAME; end;

   -- Takes all keys out.
   clear post size = 0 is
      chains := #ARRAY{FMAP_ENTRY{K, V}}(11);
      first := void; last := void; size := 0;
   end;

   -- Whether there are no keys.
   is_empty:BOOL post result = (size = 0) is return size = 0; end;

   -- Whether the key is there, by two names.
   has_ind(key:K):BOOL is return ~void(entry(key)); end;
   test(key:K):BOOL is return ~void(entry(key)); end;

   -- What stands at the key; void where it isn't there.
   get(key:K):V is
      entry ::= entry(key);
      if void(entry) then return void; end;
      return entry.elt;
   end;

   -- What stands at the key, as `map[key]`. Where it isn't there, "no such key" is raised.
   aget(key:K):V is
      entry ::= entry(key);
      if void(entry) then raise "no such key"; end;
      return entry.elt;
   end;

   -- Puts something at the key, as `map[key] := elt`, in the place of what stood there. With a result `insert` gives the map itself.
   aset(key:K, elt:V) post size >= initial(size) and size <= initial(size) + 1 and size > 0 is
      entry ::= entry(key);
      if void(entry) then link(#FMAP_ENTRY{K, V}(key, hash_of(key), elt)); else entry.elt := elt; end;
   end;
   insert(key:K, elt:V) post size >= initial(size) and size <= initial(size) + 1 and size > 0 is [key] := elt; end;
   insert(key:K, elt:V):SAME post size >= initial(size) and size <= initial(size) + 1 and size > 0 is
      [key] := elt;
      return self;
   end;

   -- Takes the key out, if it is there. With a result it gives the map itself.
   delete(key:K) post size <= initial(size) and size >= initial(size) - 1 is
      entry ::= entry(key);
      if ~void(entry) then unchain(entry); unlink(entry); size := size - 1; end;
   end;
   delete(key:K):SAME post size <= initial(size) and size >= initial(size) - 1 is delete(key); return self; end;

   -- The keys, in the order in which they were put in. The one that was yielded last may be taken out meanwhile.
   keys!:K is loop yield entries!.key; end; end;

   -- What stands at the keys, in their order, by two names.
   elts!:V is loop yield entries!.elt; end; end;
   targets!:V is loop yield entries!.elt; end; end;

   -- The keys, each with what stands there. An `out` argument takes no room, as a pair would that is made each time.
   pairs!(out elt:V):K is loop entry ::= entries!; elt := entry.elt; yield entry.key; end; end;

   -- A map of its own with the same keys.
   copy:SAME post result.size = size is
      map ::= #SAME;
      loop entry ::= entries!; map.link(#FMAP_ENTRY{K, V}(entry.key, entry.hash, entry.elt)); end;
      return map;
   end;

   private entries!:FMAP_ENTRY{K, V} is
      entry ::= first;
      loop until!(void(entry)); yield entry; entry := entry.after; end;
   end;

   -- The hash of a key. A class that includes this one may take keys of other types, by a routine of its own.
   private hash_of(key:K):INT is return HASHES::of(key); end;

   private entry(key:K):FMAP_ENTRY{K, V} is
      hash ::= hash_of(key);
      entry ::= chains[hash % chains.size];
      loop until!(void(entry) or (entry.hash = hash and entry.key = key)); entry := entry.next; end;
      return entry;
   end;

   -- Puts a new key's entry into its chain and behind all others. No chain has more than 2 entries on the average.
   private link(entry:FMAP_ENTRY{K, V}) is
      if size = 2 * chains.size then rehash(2 * chains.size + 1); end;
      chain(entry);
      entry.before := last;
      if void(last) then first := entry; else last.after := entry; end;
      last := entry;
      size := size + 1;
   end;

   private chain(entry:FMAP_ENTRY{K, V}) is
      place ::= entry.hash % chains.size;
      entry.next := chains[place];
      chains[place] := entry;
   end;

   private rehash(count:INT) is
      chains := #ARRAY{FMAP_ENTRY{K, V}}(count);
      loop chain(entries!); end;
   end;

   private unchain(entry:FMAP_ENTRY{K, V}) is
      place ::= entry.hash % chains.size;
      link ::= chains[place];
      if SYS::ob_eq(link, entry) then chains[place] := entry.next; return; end;
      loop until!(SYS::ob_eq(link.next, entry)); link := link.next; end;
      link.next := entry.next;
   end;

   private unlink(entry:FMAP_ENTRY{K, V}) is
      if void(entry.before) then first := entry.after; else entry.before.after := entry.after; end;
      if void(entry.after) then last := entry.before; else entry.after.before := entry.before; end;
   end;
end;

class FSET{T} is
   private attr map:FMAP{T, BOOL};

   -- A set of nothing.
   create:SAME is set ::= new; set.map := #FMAP{T, BOOL}; return set; end;

   -- How many elements it has, and whether it has none.
   size:INT post result = map.size is return map.size; end;
   is_empty:BOOL post result = (map.size = 0) is return map.size = 0; end;

   -- Whether the element is in it, by two names.
   has(elt:T):BOOL is return map.has_ind(elt); end;
   test(elt:T):BOOL is return map.has_ind(elt); end;

   -- Puts the element in, if it isn't there. With a result it gives the set itself.
   insert(elt:T) post map.size >= initial(map.size) is map[elt] := true; end;
   insert(elt:T):SAME post map.size >= initial(map.size) is map[elt] := true; return self; end;

   -- Takes the element out, if it is there. With a result it gives the set itself.
   delete(elt:T) post map.size <= initial(map.size) is map.delete(elt); end;
   delete(elt:T):SAME post map.size <= initial(map.size) is map.delete(elt); return self; end;

   -- The elements, in the order in which they were put in. The one that was yielded last may be taken out meanwhile.
   elt!:T is loop yield map.keys!; end; end;

   -- A set of its own with the same elements.
   copy:SAME is set ::= new; set.map := map.copy; return set; end;

   -- What is in one of the two sets, in both, and in this one alone; each is a set of its own.
   union(other:SAME):SAME is
      set ::= copy;
      loop set.insert(other.elt!); end;
      return set;
   end;
   intersection(other:SAME):SAME is
      set ::= #SAME;
      loop elt ::= elt!; if other.has(elt) then set.insert(elt); end; end;
      return set;
   end;
   difference(other:SAME):SAME is
      set ::= #SAME;
      loop elt ::= elt!; if ~other.has(elt) then set.insert(elt); end; end;
      return set;
   end;

   -- Whether each of its elements is in the other set.
   is_subset(other:SAME):BOOL is
      loop if ~other.has(elt!) then return false; end; end;
      return true;
   end;

   -- Whether the two sets have the same elements.
   is_eq(other:SAME):BOOL is return size = other.size and is_subset(other); end;
end;
"#;
