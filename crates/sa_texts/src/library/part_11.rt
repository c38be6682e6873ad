//! Part 12 of the files of lib/.

/// The texts of this part, each behind the words that ask for it.
pub(crate) const FILES_11: [(&str, &str, &str, &str); 1] = [("tup", "tup.sa", "tup.sa", TUP)];

const TUP: &str =
    r#"-- TUP, TUP3 and TUP4: two, three or four values as one, for routines that give several and for lists of pairs. They are values: an
-- assignment to an attribute of a variable changes this variable alone. Two are equal where their values are, and the keys of a MAP may be
-- tuples.
--
--    pair ::= #TUP{STR, INT}("Ann", 31);
--    pair.t2 := pair.t2 + 1;
--    #OUT + pair.t1 + " is " + pair.t2 + "\n";                                          -- Ann is 32
--    pairs ::= #FLIST{TUP{STR, INT}};
--    pairs.push(pair);
--    #OUT + pairs[0] + " " + (pairs[0] = #TUP{STR, INT}("Ann", 32)) + "\n";             -- (Ann, 32) true
abstract class $TUP is hash:INT; end;

-- What is done with a single value of a tuple, whatever its type is.
partial class TUP_PARTS is
   private const modulus:INT := 16777213;

   -- Whether two values are equal: by `is_eq` where they are below $IS_EQ, and else whether they are one object.
   private same(a, b:INT):BOOL is return a = b; end;
   private same(a, b:CHAR):BOOL is return a = b; end;
   private same(a, b:BOOL):BOOL is return a = b; end;
   private same(a, b:STR):BOOL is return a = b; end;
   private same(a, b:$OB):BOOL is
      typecase a when $IS_EQ then return a.is_eq(b); else return SYS::ob_eq(a, b); end;
   end;

   -- The hash of a value, which is never below 0: that of a number, a byte, a text or a tuple, and 0 of all else.
   private hash_of(a:INT):INT post result >= 0 is return a.band(0x7fffffff); end;
   private hash_of(a:CHAR):INT post result >= 0 is return a.int; end;
   private hash_of(a:BOOL):INT post result >= 0 is if a then return 1; end; return 0; end;
   private hash_of(a:STR):INT post result >= 0 is
      hash ::= 0;
      loop hash := joined(hash, a.elt!.int); end;
      return hash;
   end;
   private hash_of(a:$OB):INT is typecase a when $TUP then return a.hash; else return 0; end; end;

   -- The hash of two things, made of the hashes of each.
   private joined(a, b:INT):INT pre a >= 0 and b >= 0 post result >= 0 is return (a % modulus * 127 + b % modulus) % modulus; end;

   -- The text of a value, and `void` of what is below $STR and isn't there; `_` of what has no text.
   private text_of(a:$OB):STR is
      if void(a) then return "void"; end;
      typecase a when $STR then return a.str; else return "_"; end;
   end;
end;

immutable class TUP{T1, T2} < $TUP, $STR, $IS_EQ is
   private include TUP_PARTS;

   -- The first and the second value.
   attr t1:T1;
   attr t2:T2;

   -- The two values as one.
   create(t1:T1, t2:T2):SAME is pair:SAME; return pair.t1(t1).t2(t2); end;

   -- The two the other way round.
   swapped:TUP{T2, T1} is return #TUP{T2, T1}(t2, t1); end;

   -- Whether the values of the two tuples are equal.
   is_eq(other:SAME):BOOL is return same(t1, other.t1) and same(t2, other.t2); end;
   is_eq(other:$OB):BOOL is typecase other when SAME then return is_eq(other); else return false; end; end;

   -- A number from 0 on that is equal where the tuples are.
   hash:INT is return joined(hash_of(t1), hash_of(t2)); end;

   -- The texts of the values, in parentheses.
   str:STR is return "(" + text_of(t1) + ", " + text_of(t2) + ")"; end;
end;

immutable class TUP3{T1, T2, T3} < $TUP, $STR, $IS_EQ is
   private include TUP_PARTS;

   -- The first, the second and the third value.
   attr t1:T1;
   attr t2:T2;
   attr t3:T3;

   -- The three values as one.
   create(t1:T1, t2:T2, t3:T3):SAME is three:SAME; return three.t1(t1).t2(t2).t3(t3); end;

   -- Whether the values of the two tuples are equal.
   is_eq(other:SAME):BOOL is return same(t1, other.t1) and same(t2, other.t2) and same(t3, other.t3); end;
   is_eq(other:$OB):BOOL is typecase other when SAME then return is_eq(other); else return false; end; end;

   -- A number from 0 on that is equal where the tuples are.
   hash:INT is return joined(joined(hash_of(t1), hash_of(t2)), hash_of(t3)); end;

   -- The texts of the values, in parentheses.
   str:STR is return "(" + text_of(t1) + ", " + text_of(t2) + ", " + text_of(t3) + ")"; end;
end;

immutable class TUP4{T1, T2, T3, T4} < $TUP, $STR, $IS_EQ is
   private include TUP_PARTS;

   -- The first, the second, the third and the fourth value.
   attr t1:T1;
   attr t2:T2;
   attr t3:T3;
   attr t4:T4;

   -- The four values as one.
   create(t1:T1, t2:T2, t3:T3, t4:T4):SAME is four:SAME; return four.t1(t1).t2(t2).t3(t3).t4(t4); end;

   -- Whether the values of the two tuples are equal.
   is_eq(other:SAME):BOOL is return same(t1, other.t1) and same(t2, other.t2) and same(t3, other.t3) and same(t4, other.t4); end;
   is_eq(other:$OB):BOOL is typecase other when SAME then return is_eq(other); else return false; end; end;

   -- A number from 0 on that is equal where the tuples are.
   hash:INT is return joined(joined(joined(hash_of(t1), hash_of(t2)), hash_of(t3)), hash_of(t4)); end;

   -- The texts of the values, in parentheses.
   str:STR is return "(" + text_of(t1) + ", " + text_of(t2) + ", " + text_of(t3) + ", " + text_of(t4) + ")"; end;
end;
"#;
