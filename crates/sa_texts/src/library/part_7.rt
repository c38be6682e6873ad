//! Part 8 of the files of lib/.

/// The texts of this part, each behind the words that ask for it.
pub(crate) const FILES_7: [(&str, &str, &str, &str); 1] = [("list", "list.sa", "list.sa", LIST)];

const LIST: &str =
    r#"-- LIST: a list that grows, with what FLIST of the prelude lacks. It includes FLIST and has all that this has.
--
--    list ::= #LIST{INT}(|3, 1, 4, 1, 5|);
--    list.push(9);
--    list.insert(0, 2); list.delete(2);
--    loop #OUT + list.elt! + " "; end;                                                  -- 2 3 4 1 5 9
--    #OUT + list.size + list.contains(4) + list.index_of(5) + "\n";                     -- 6true4
class EQUAL is
   -- Whether two values are equal: by `is_eq` where they are below $IS_EQ, and else whether they are one object.
   of(a, b:INT):BOOL post result = (a = b) is return a = b; end;
   of(a, b:CHAR):BOOL post result = (a = b) is return a = b; end;
   of(a, b:BOOL):BOOL post result = (a = b) is return a = b; end;
   of(a, b:STR):BOOL is return a = b; end;
   of(a, b:$OB):BOOL is
      typecase a when $IS_EQ then return a.is_eq(b); else return SYS::ob_eq(a, b); end;
   end;

   -- Whether two are the same, which Sather 1.1 asks by SYS::is_eq: of values and texts whether they are equal, by `is_eq`, and of
   -- objects whether they are one. Values whose class isn't below $IS_EQ can't be compared: a text is raised.
   same(a, b:INT):BOOL post result = (a = b) is return a = b; end;
   same(a, b:CHAR):BOOL post result = (a = b) is return a = b; end;
   same(a, b:BOOL):BOOL post result = (a = b) is return a = b; end;
   same(a, b:STR):BOOL is return a = b; end;
   same(a, b:$OB):BOOL is
      -- An object is one with itself, and so is void; a value and a text are one with nothing.
      if SYS::ob_eq(a, a) then return SYS::ob_eq(a, b); end;
      typecase a when $IS_EQ then return a.is_eq(b); else raise "values of a class that isn't below $IS_EQ"; end;
   end;
end;

class LIST{T} is
   include FLIST{T};

   invariant:BOOL is return size >= 0 and size <= store.asize; end;

   -- A list of the elements of an array.
   create(elts:ARRAY{T}):SAME post result.size = elts.asize is
      list ::= #SAME;
      list.append(elts);
      return list;
   end;

   -- Whether it has no elements.
   is_empty:BOOL post result = (size = 0) is return size = 0; end;

   -- Takes all elements out, and keeps the room.
   clear post size = 0 is size := 0; end;

   -- The first and the last element, which is the top one too.
   first:T pre size > 0 is return [0]; end;
   last:T pre size > 0 is return [size - 1]; end;
   top:T pre size > 0 is return [size - 1]; end;

   -- Puts an element behind the others, and gives the list itself, so that one may go on: `list.push(1).push(2);`.
   push(elt:T):SAME post size = initial(size) + 1 is push(elt); return self; end;

   -- Takes the last element out, and gives it.
   pop:T pre size > 0 post size = initial(size) - 1 is size := size - 1; return store[size]; end;

   -- Puts the elements of an array or of another list behind the others. With a result it gives the list itself.
   append(elts:ARRAY{T}) post size = initial(size + elts.asize) is loop push(elts.elt!); end; end;
   append(elts:ARRAY{T}):SAME post size = initial(size + elts.asize) is append(elts); return self; end;
   append(other:SAME) post size = initial(size + other.size) is
      loop push(other[0.upto!(other.size - 1)]); end;
   end;
   append(other:SAME):SAME post size = initial(size + other.size) is append(other); return self; end;

   -- Puts an element to the place i, and those from there on one place further. With a result it gives the list itself.
   insert(i:INT, elt:T) pre i >= 0 and i <= size post size = initial(size) + 1 is
      push(elt);
      loop place ::= (size - 1).downto!(i + 1); [place] := [place - 1]; end;
      [i] := elt;
   end;
   insert(i:INT, elt:T):SAME pre i >= 0 and i <= size post size = initial(size) + 1 is insert(i, elt); return self; end;

   -- Takes out the element of the place i, and puts those behind it one place nearer. With a result it gives the list itself.
   delete(i:INT) pre i >= 0 and i < size post size = initial(size) - 1 is
      loop place ::= i.upto!(size - 2); [place] := [place + 1]; end;
      size := size - 1;
   end;
   delete(i:INT):SAME pre i >= 0 and i < size post size = initial(size) - 1 is delete(i); return self; end;

   -- The first place of an element that is equal; -1 where there is none.
   index_of(elt:T):INT post result >= -1 and result < size is
      loop place ::= ind!; if EQUAL::of([place], elt) then return place; end; end;
      return -1;
   end;

   -- Whether an element is equal, by two names, and how many are.
   contains(elt:T):BOOL is return index_of(elt) >= 0; end;
   has(elt:T):BOOL is return index_of(elt) >= 0; end;
   count(elt:T):INT post result >= 0 and result <= size is
      count ::= 0;
      loop if EQUAL::of(elt!, elt) then count := count + 1; end; end;
      return count;
   end;

   -- Turns the order of the elements round.
   to_reverse post size = initial(size) is
      loop
         place ::= 0.upto!(size / 2 - 1); other ::= size - 1 - place;
         elt ::= [place]; [place] := [other]; [other] := elt;
      end;
   end;

   -- The n elements from the place i on, as a list of its own.
   sublist(i, n:INT):SAME pre i >= 0 and n >= 0 and i + n <= size post result.size = n is
      list ::= #SAME;
      loop list.push([i.upto!(i + n - 1)]); end;
      return list;
   end;

   -- A list of its own with the same elements.
   copy:SAME post result.size = size is return sublist(0, size); end;

   -- The elements for which a test is true, as a list of its own.
   filter(test:ROUT{T}:BOOL):SAME post result.size <= size is
      list ::= #SAME;
      loop elt ::= elt!; if test.call(elt) then list.push(elt); end; end;
      return list;
   end;

   -- The elements, as an array of its own.
   array:ARRAY{T} post result.asize = size is
      elts ::= #ARRAY{T}(size);
      loop elts.set!(elt!); end;
      return elts;
   end;

   -- Whether the other list has equal elements in the same order.
   is_eq(other:SAME):BOOL is
      if size /= other.size then return false; end;
      loop if ~EQUAL::of(elt!, other.elt!) then return false; end; end;
      return true;
   end;

   -- The elements from a place on, and n of them.
   elt!(once start:INT):T pre start >= 0 is place ::= start; loop while!(place < size); yield [place]; place := place + 1; end; end;
   elt!(once start, n:INT):T pre start >= 0 and n >= 0 and start + n <= size is
      loop yield [start.upto!(start + n - 1)]; end;
   end;

   -- The places, from 0 on.
   ind!:INT post result >= 0 and result < size is place ::= 0; loop while!(place < size); yield place; place := place + 1; end; end;

   -- Puts an element to each place, one in each round.
   set!(elt:T) is place ::= 0; loop while!(place < size); [place] := elt; yield; place := place + 1; end; end;
end;
"#;
