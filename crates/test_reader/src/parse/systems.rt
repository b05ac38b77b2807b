// Written by tests/data/reader_cases.py, which has the table by hand.

/// Texts of systems, and their canonical texts.
pub(super) const SYSTEMS: [(&[u8], &[u8]); 63] = [
    (
        b"Variables x in [0,4]; Constraints x <= 1; end",
        b"vars 1\nx 0:0 1:2\nctrs 1\n<= v0 1/1\n",
    ),
    (
        b"variables x constraints x=1 end",
        b"vars 1\nx -oo +oo\nctrs 1\n= v0 1/1\n",
    ),
    (
        b"Variables x,y;z Constraints x+y=z;End",
        b"vars 3\nx -oo +oo\ny -oo +oo\nz -oo +oo\nctrs 1\n= (+ v0 v1) v2\n",
    ),
    (
        b"Constants a=1,b=-2;c=+0.50; Variables x Constraints a*x+b<c end",
        b"vars 1\nx -oo +oo\nctrs 1\n< (+ (* 1/1 v0) -2/1) 1/2\n",
    ),
    (
        b"Variables x in[-oo,oo];Constraints x>0;end",
        b"vars 1\nx -oo +oo\nctrs 1\n> v0 0/1\n",
    ),
    (
        b"Variables x in [+1,+oo] Constraints x>=0 end//",
        b"vars 1\nx 1:0 +oo\nctrs 1\n>= v0 0/1\n",
    ),
    (
        b"Variables x in [-oo,-1] Constraints x>=0 end/*",
        b"vars 1\nx -oo -1:0\nctrs 1\n>= v0 0/1\n",
    ),
    (
        b"Variables x in [-1/**/,1.] Constraints x>=1.e2 end",
        b"vars 1\nx -1:0 1:0\nctrs 1\n>= v0 100/1\n",
    ),
    (
        b"Constants k=2 Variables x in [-k,+k] Constraints x<k end",
        b"vars 1\nx -1:1 1:1\nctrs 1\n< v0 2/1\n",
    ),
    (
        b"Variables x, Constraints x<1; end",
        b"vars 1\nx -oo +oo\nctrs 1\n< v0 1/1\n",
    ),
    (
        b"Variables x; Constraints x<1; end",
        b"vars 1\nx -oo +oo\nctrs 1\n< v0 1/1\n",
    ),
    (
        b"Variables x; Constraints -x^2 < 1 end",
        b"vars 1\nx -oo +oo\nctrs 1\n< (neg (^ v0 2)) 1/1\n",
    ),
    (
        b"Variables x; Constraints --x < 1 end",
        b"vars 1\nx -oo +oo\nctrs 1\n< (neg (neg v0)) 1/1\n",
    ),
    (
        b"Variables x; Constraints +x < 1 end",
        b"vars 1\nx -oo +oo\nctrs 1\n< v0 1/1\n",
    ),
    (
        b"Variables x; Constraints 2--3*-x < 1 end",
        b"vars 1\nx -oo +oo\nctrs 1\n< (- 2/1 (* (neg 3/1) (neg v0))) 1/1\n",
    ),
    (
        b"Variables x; Constraints x-1-2 < x/2/4 end",
        b"vars 1\nx -oo +oo\nctrs 1\n< (- (- v0 1/1) 2/1) (/ (/ v0 2/1) 4/1)\n",
    ),
    (
        b"Variables x; Constraints x*(1+x)^3 >= -(x-1) end",
        b"vars 1\nx -oo +oo\nctrs 1\n>= (* v0 (^ (+ 1/1 v0) 3)) (neg (- v0 1/1))\n",
    ),
    (
        b"Variables x; Constraints x^007 = x^0 end",
        b"vars 1\nx -oo +oo\nctrs 1\n= (^ v0 7) (^ v0 0)\n",
    ),
    (
        b"Variables x; Constraints sqr(x+1) < abs(-x) end",
        b"vars 1\nx -oo +oo\nctrs 1\n< (^ (+ v0 1/1) 2) (abs (neg v0))\n",
    ),
    (
        b"Variables x; Constraints min(x,max(1,x)) < 1e-3 end",
        b"vars 1\nx -oo +oo\nctrs 1\n< (min v0 (max 1/1 v0)) 1/1000\n",
    ),
    (
        b"Variables x; Constraints sqr(x)^2 < 1 end",
        b"vars 1\nx -oo +oo\nctrs 1\n< (^ (^ v0 2) 2) 1/1\n",
    ),
    (
        b"Variables x; Constraints x < 1e36 end",
        b"vars 1\nx -oo +oo\nctrs 1\n< v0 1000000000000000000000000000000000000/1\n",
    ),
    (
        b"Variables x; Constraints x < 1e-36 end",
        b"vars 1\nx -oo +oo\nctrs 1\n< v0 1/1000000000000000000000000000000000000\n",
    ),
    (
        b"Variables x; Constraints x < 9999999999999999999999999999999999999 end",
        b"vars 1\nx -oo +oo\nctrs 1\n< v0 9999999999999999999999999999999999999/1\n",
    ),
    (
        b"Variables x; Constraints x < 0.5e0 end",
        b"vars 1\nx -oo +oo\nctrs 1\n< v0 1/2\n",
    ),
    (
        b"Variables x; Constraints x < 5E-1 end",
        b"vars 1\nx -oo +oo\nctrs 1\n< v0 1/2\n",
    ),
    (
        b"Variables x; Constraints x < 5e+1 end",
        b"vars 1\nx -oo +oo\nctrs 1\n< v0 50/1\n",
    ),
    (
        b"Variables x; Constraints x < 00.250 end",
        b"vars 1\nx -oo +oo\nctrs 1\n< v0 1/4\n",
    ),
    (
        b"Variables x; Constraints 1 = 1 end",
        b"vars 1\nx -oo +oo\nctrs 1\n= 1/1 1/1\n",
    ),
    (
        b"Variables x; Constraints x<1;x>2;x=3;x<=4;x>=5; end",
        b"vars 1\nx -oo +oo\nctrs 5\n< v0 1/1\n> v0 2/1\n= v0 3/1\n<= v0 4/1\n>= v0 5/1\n",
    ),
    (
        b"Variables x; Constraints x<1;x>2 end",
        b"vars 1\nx -oo +oo\nctrs 2\n< v0 1/1\n> v0 2/1\n",
    ),
    (
        b"Variables x; Constraints ((((x)))) < 1 end",
        b"vars 1\nx -oo +oo\nctrs 1\n< v0 1/1\n",
    ),
    (
        b"Variables x; Constraints x//c\n<1/* * / */ end",
        b"vars 1\nx -oo +oo\nctrs 1\n< v0 1/1\n",
    ),
    (
        b"Variables x; Constraints x/x<1 end",
        b"vars 1\nx -oo +oo\nctrs 1\n< (/ v0 v0) 1/1\n",
    ),
    (
        b"Variables x; Constraints x*x/x*x<1 end",
        b"vars 1\nx -oo +oo\nctrs 1\n< (* (/ (* v0 v0) v0) v0) 1/1\n",
    ),
    (
        b"Variables End1, In, ABS Constraints In<ABS*End1 end",
        b"vars 3\nEnd1 -oo +oo\nIn -oo +oo\nABS -oo +oo\nctrs 1\n< v1 (* v2 v0)\n",
    ),
    (
        b"Variables _ Constraints _<1 end",
        b"vars 1\n_ -oo +oo\nctrs 1\n< v0 1/1\n",
    ),
    (
        b"Variables x in [3,3] Constraints x=3 end",
        b"vars 1\nx 3:0 3:0\nctrs 1\n= v0 3/1\n",
    ),
    (
        b"Variables x in [0.1,0.10] Constraints x<1 end",
        b"vars 1\nx 3689348814741910323:-65 922337203685477581:-63\nctrs 1\n< v0 1/1\n",
    ),
    (
        b"Variables x in [-2,-1.5] Constraints x<1 end",
        b"vars 1\nx -1:1 -3:-1\nctrs 1\n< v0 1/1\n",
    ),
    (
        b"Variables x in [1e-36, 1e36] Constraints x<1 end",
        b"vars 1\nx 766247770432944429:-179 3469446951953614189:58\nctrs 1\n< v0 1/1\n",
    ),
    (
        b"Variables x in [0,4]; function f(a) return a^2; end Constraints f(x) <= 4; end",
        b"vars 1\nx 0:0 1:2\nctrs 1\n<= (^ v0 2) 4/1\n",
    ),
    (
        b"Variables x in [0,4]; function f(a,b) return a-b end Constraints f(x,1) < f(2,x) end",
        b"vars 1\nx 0:0 1:2\nctrs 1\n< (- v0 1/1) (- 2/1 v0)\n",
    ),
    (
        b"Variables x in [0,4]; function f(a) return 1 end Constraints f(x/0) < 1 end",
        b"vars 1\nx 0:0 1:2\nctrs 1\n< 1/1 1/1\n",
    ),
    (
        b"Variables x in [0,4]; function id(a) return a end function g(b) return id(id(b)) end; Constraints g(x) = id(x) end",
        b"vars 1\nx 0:0 1:2\nctrs 1\n= v0 v0\n",
    ),
    (
        b"Variables x in [0,4]; function f(a,b) return a+a end function g(a) return f(a,f(a,a)) end Constraints g(x) < 1 end",
        b"vars 1\nx 0:0 1:2\nctrs 1\n< (+ v0 v0) 1/1\n",
    ),
    (
        b"Constants a=3 function f(a) return a+1 end Variables x Constraints f(x)<a end",
        b"vars 1\nx -oo +oo\nctrs 1\n< (+ v0 1/1) 3/1\n",
    ),
    (
        b"Constants a=3; function f(b) return a*b end Variables x Constraints f(x)<a end",
        b"vars 1\nx -oo +oo\nctrs 1\n< (* 3/1 v0) 3/1\n",
    ),
    (
        b"function f(x) return x end function g(x) return f(x)^2 end Variables x Constraints g(x)<1 end",
        b"vars 1\nx -oo +oo\nctrs 1\n< (^ v0 2) 1/1\n",
    ),
    (
        b"Function f(a) Return -a End Variables x Constraints f(x)<1 End",
        b"vars 1\nx -oo +oo\nctrs 1\n< (neg v0) 1/1\n",
    ),
    (
        b"Variables x in [0,4]; function f(a) return a end Constraints f(f(f(x))) < 1; end",
        b"vars 1\nx 0:0 1:2\nctrs 1\n< v0 1/1\n",
    ),
    (
        b"Variables x in [0,4]; function f(a) return min(a,sqr(a)) end Constraints abs(f(x+1)) < 1; end",
        b"vars 1\nx 0:0 1:2\nctrs 1\n< (abs (min (+ v0 1/1) (^ (+ v0 1/1) 2))) 1/1\n",
    ),
    (
        b"Variables x in [0,4]; function f(a,b,c,d,e,g,h,i,j,k,l,m) return m-a end Constraints f(1,2,3,4,5,6,7,8,9,10,11,x) < 1 end",
        b"vars 1\nx 0:0 1:2\nctrs 1\n< (- v0 1/1) 1/1\n",
    ),
    (
        b"Variables x in [0,4]; function f(y) return y end; function g(y) return f(y)*f(2) end Constraints g(x) > 0; end",
        b"vars 1\nx 0:0 1:2\nctrs 1\n> (* v0 2/1) 0/1\n",
    ),
    (
        b"Variables a,b,c,d,e,f,g,h,i,j,k,l, Constraints l<1; end",
        b"vars 12\na -oo +oo\nb -oo +oo\nc -oo +oo\nd -oo +oo\ne -oo +oo\nf -oo +oo\ng -oo +oo\nh -oo +oo\ni -oo +oo\nj -oo +oo\nk -oo +oo\nl -oo +oo\nctrs 1\n< v11 1/1\n",
    ),
    (
        b"Variables x; Constraints x<1;x<1;x<1;x<1;x<1;x<1;x<1;x<1;x<1;x<1;x<1;x<1;x<1;x<1;x<1;x<1;x<1;x<1;x<1;x<1;x<1;x<1;x<1;x<1;x<1;x<1;x<1;x<1;x<1;x<1;x<1;x<1;x<1;x<1;x<1;x<1;x<1;x<1;x<1;x<1;x<1;x<1;x<1;x<1;x<1;x<1;x<1;x<1;x<1;x<1;x<1;x<1;x<1;x<1;x<1;x<1;x<1;x<1;x<1;x<1;x<1;x<1;x<1;x<1; end",
        b"vars 1\nx -oo +oo\nctrs 64\n< v0 1/1\n< v0 1/1\n< v0 1/1\n< v0 1/1\n< v0 1/1\n< v0 1/1\n< v0 1/1\n< v0 1/1\n< v0 1/1\n< v0 1/1\n< v0 1/1\n< v0 1/1\n< v0 1/1\n< v0 1/1\n< v0 1/1\n< v0 1/1\n< v0 1/1\n< v0 1/1\n< v0 1/1\n< v0 1/1\n< v0 1/1\n< v0 1/1\n< v0 1/1\n< v0 1/1\n< v0 1/1\n< v0 1/1\n< v0 1/1\n< v0 1/1\n< v0 1/1\n< v0 1/1\n< v0 1/1\n< v0 1/1\n< v0 1/1\n< v0 1/1\n< v0 1/1\n< v0 1/1\n< v0 1/1\n< v0 1/1\n< v0 1/1\n< v0 1/1\n< v0 1/1\n< v0 1/1\n< v0 1/1\n< v0 1/1\n< v0 1/1\n< v0 1/1\n< v0 1/1\n< v0 1/1\n< v0 1/1\n< v0 1/1\n< v0 1/1\n< v0 1/1\n< v0 1/1\n< v0 1/1\n< v0 1/1\n< v0 1/1\n< v0 1/1\n< v0 1/1\n< v0 1/1\n< v0 1/1\n< v0 1/1\n< v0 1/1\n< v0 1/1\n< v0 1/1\n",
    ),
    (
        b"Variables x; Constraints x^32 = 1 end",
        b"vars 1\nx -oo +oo\nctrs 1\n= (^ v0 32) 1/1\n",
    ),
    (
        b"Variables x; Constraints -2*x^2+3 < 1 end",
        b"vars 1\nx -oo +oo\nctrs 1\n< (+ (* (neg 2/1) (^ v0 2)) 3/1) 1/1\n",
    ),
    (
        b"Variables x; Constraints (x)^2 < 1 end",
        b"vars 1\nx -oo +oo\nctrs 1\n< (^ v0 2) 1/1\n",
    ),
    (
        b"Variables x; Constraints 2^3 < x end",
        b"vars 1\nx -oo +oo\nctrs 1\n< (^ 2/1 3) v0\n",
    ),
    (
        b"Variables x; Constraints x>-1 end",
        b"vars 1\nx -oo +oo\nctrs 1\n> v0 (neg 1/1)\n",
    ),
    (
        b"Variables x; Constraints x<-1+-2 end",
        b"vars 1\nx -oo +oo\nctrs 1\n< v0 (+ (neg 1/1) (neg 2/1))\n",
    ),
    (
        b"Variables x; Constraints min(1,2)/max(x,0)<1 end",
        b"vars 1\nx -oo +oo\nctrs 1\n< (/ (min 1/1 2/1) (max v0 0/1)) 1/1\n",
    ),
];
